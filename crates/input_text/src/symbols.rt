//! Words by the symbols of their letters.
ghost use Rattle.std.specs.Prelude.{◌≡◌, ◌<◌, true, length};
ghost use Rattle.std.specs.List.{AllPass, prefix_len};
ghost use Rattle.faults.specs.Outcome.{told};
ghost use Rattle.text.specs.Faults.{text_fault};
ghost use Rattle.text.specs.Lines.{written, left};
ghost use Rattle.text.specs.Symbols.{is_symbol};

use text::{TextFault, is_symbol, letter_of};

/// A word as it stands in a line: a symbol for each letter, 0 to 9 and a to f.
// a part of the line, which may be long; its letters are written where they are wanted
#[derive(Clone, Copy)]
pub struct Symbols<'a> {
    bytes: &'a [u8],
    ghost spelled: { AllPass is_symbol bytes.now },
}

/// How many symbols a text begins with.
fn leading_symbols(text: &[u8]) -> usize
    ensures { result ≡ prefix_len is_symbol text.now }
{
    text.iter().take_while(|byte| is_symbol(**byte)).count()
}

impl<'a> Symbols<'a> {
    ghost use Rattle.input_text.specs.Symbols.{letters_of, Leading};

    /// All symbols that a text begins with, if it does.
    #[tactic(auto, using(crate::proofs::Spelled::leading_size, crate::proofs::Spelled::leading_pass, crate::proofs::Spelled::leading_whole))]
    pub(crate) fn leading(text: &'a [u8]) -> Option<Self>
        ensures { Leading text.now result }
    {
        let count = leading_symbols(text);
        if count == 0 {
            return None;
        }
        Some(Symbols {
            bytes: &text[..count],
        })
    }

    /// How many letters the word has.
    pub(crate) fn count(self) -> usize
        ensures { result ≡ length (letters_of self.entry) }
    {
        self.bytes.len()
    }

    /// Writes the letters of the word to the front of a buffer, and answers how many there are.
    /// A buffer that is too short stays as it was.
    #[tactic(auto, using(crate::proofs::Spelled::letter_written))]
    pub fn write_letters(self, buffer: &mut [u8]) -> Result<usize, TextFault>
        ensures outcome { told (λ n. n) text_fault result ≡ written (letters_of self.entry) buffer.old }
        ensures buffer { buffer.new ≡ left (letters_of self.entry) buffer.old }
    {
        if buffer.len() < self.bytes.len() {
            return Err(TextFault::ShortBuffer);
        }
        for (place, symbol) in self.bytes.iter().enumerate() {
            buffer[place] = letter_of(*symbol);
        }
        Ok(self.bytes.len())
    }
}
