//! Reading a line part by part.
ghost use Rattle.std.specs.Prelude.{◌≡◌};
ghost use Rattle.text.specs.declared.fault.TextFault.TheVariants.{Malformed};
ghost use Rattle.input_text.specs.Parts.{DigitAt, NumberAt, SpaceAt, WordAt, EndAt, place_behind};

use crate::symbols::Symbols;
use text::TextFault;

/// A line, and the place from which on it is left to read.
// the whole line and a place, and not what is left of it: faults name places
#[derive(Drop)]
pub(crate) struct LineReader<'a> {
    line: &'a [u8],
    place: usize,
}

impl<'a> LineReader<'a> {
    /// A reader at the start of a line.
    pub(crate) fn new(line: &'a [u8]) -> Self
        ensures line { result.line.now ≡ line.now }
        ensures place { result.place ≡ 0 }
    {
        LineReader { line, place: 0 }
    }

    /// Reads a number: one digit, or two where the first is no zero. A digit that can be its second is taken.
    pub(crate) fn number(&mut self) -> Result<u8, TextFault>
        ensures line { self.new.line.now ≡ self.old.line.now }
        ensures number { NumberAt self.old.line.now self.old.place self.new.place result }
    {
        let Some(first) = self.digit() else {
            return Err(self.fault());
        };
        if first > 0 {
            if let Some(second) = self.digit() {
                return Ok(first * 10 + second);
            }
        }
        Ok(first)
    }

    /// Reads a space.
    pub(crate) fn space(&mut self) -> Result<(), TextFault>
        ensures line { self.new.line.now ≡ self.old.line.now }
        ensures space { SpaceAt self.old.line.now self.old.place self.new.place result }
    {
        if self.line.get(self.place) != Some(&b' ') {
            return Err(self.fault());
        }
        self.place += 1;
        Ok(())
    }

    /// Reads a word: all symbols that come next, and at least one.
    pub(crate) fn word(&mut self) -> Result<Symbols<'a>, TextFault>
        ensures line { self.new.line.now ≡ self.old.line.now }
        ensures word { WordAt self.old.line.now self.old.place self.new.place result }
    {
        let Some(word) = self.line.get(self.place..).and_then(Symbols::leading) else {
            return Err(self.fault());
        };
        self.place += word.count();
        Ok(word)
    }

    /// Checks that the line ends here.
    pub(crate) fn end(&self) -> Result<(), TextFault>
        ensures { EndAt self.now.line.now self.now.place result }
    {
        if self.place < self.line.len() {
            return Err(self.fault());
        }
        Ok(())
    }

    /// Takes the digit that comes next, if one does.
    fn digit(&mut self) -> Option<u8>
        ensures line { self.new.line.now ≡ self.old.line.now }
        ensures digit { DigitAt self.old.line.now self.old.place result }
        ensures place { self.new.place ≡ place_behind self.old.place result }
    {
        let digit = *self.line.get(self.place)?;
        if !digit.is_ascii_digit() {
            return None;
        }
        self.place += 1;
        Some(digit - b'0')
    }

    /// The line cannot go on from here.
    fn fault(&self) -> TextFault
        ensures { result ≡ Malformed self.now.place }
    {
        TextFault::Malformed(self.place)
    }
}
