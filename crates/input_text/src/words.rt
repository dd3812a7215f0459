//! Reading a line "k u v".
ghost use Rattle.faults.specs.Outcome.{told};
ghost use Rattle.text.specs.Faults.{text_fault};
ghost use Rattle.input_text.specs.Words.{words_of, WordsOutcome, OneWordsOutcome};

use crate::part::LineReader;
use crate::word_pair::WordPair;
use text::TextFault;

/// Reads a line "k u v": a decimal number of at most two digits and without leading zero, and two words of one or more
/// symbols, with one space between and nothing else.
/// Any other line is refused as malformed, at the first byte at which no such line can continue, or at its end.
#[tactic(auto, using(crate::proofs::Outcomes::one_words_outcome))]
pub fn read_words(line: &[u8]) -> Result<WordPair<'_>, TextFault>
    ensures outcome { WordsOutcome line.now (told words_of text_fault result) }
    ensures one { OneWordsOutcome }
{
    let mut reader = LineReader::new(line);
    let k = reader.number()?;
    reader.space()?;
    let first = reader.word()?;
    reader.space()?;
    let second = reader.word()?;
    reader.end()?;
    Ok(WordPair { k, first, second })
}
