//! The symbols of words.
ghost use Rattle.std.specs.Prelude.{◌≡◌, ◌<◌, map, length};
ghost use Rattle.text.specs.Symbols.{symbol};
ghost use Rattle.coded_word.specs.Words.{word_of};

use coded_word::CodedWord;

/// The most letters that a word of a shape has.
pub(crate) const LETTERS: usize = 12;

/// The symbol of a letter.
pub(crate) fn symbol_of(letter: u8) -> u8
    requires { letter < 16 }
    ensures { result ≡ symbol letter }
{
    // looked up: with `char::from_digit` the lines of a shape with 16 letters took a tenth to a quarter longer
    b"0123456789abcdef"[usize::from(letter)]
}

/// Writes the symbols of a word, in as many places as it has letters.
#[tactic(auto, using(crate::proofs::Spelled::word_size, crate::proofs::Spelled::letter_small, crate::proofs::Spelled::symbols_more, crate::proofs::Spelled::symbols_all))]
pub(crate) fn put_word(word: CodedWord, symbols: &mut [u8])
    requires { length symbols.old ≡ word.length }
    ensures { symbols.new ≡ map symbol (word_of word) }
{
    let letters = word.letters();
    for (place, letter) in letters.as_slice().iter().enumerate() {
        symbols[place] = symbol_of(*letter);
    }
}
