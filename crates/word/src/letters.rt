//! Words whose letters are the numbers below k.
ghost use Rattle.std.specs.Prelude.{◌≡◌, nat_le, position};
ghost use Rattle.faults.specs.Outcome.{told};
ghost use Rattle.word.specs.Faults.{word_fault, length_checked, letters_checked};

use crate::fault::WordFault;

/// Refuses a word that has not 1 to n letters.
pub fn check_length(n: usize, letters: usize) -> Result<(), WordFault>
    ensures { told (λ done. done) word_fault result ≡ length_checked n letters }
{
    if letters == 0 || letters > n {
        return Err(WordFault::OtherLength);
    }
    Ok(())
}

/// Refuses a word that has a letter not below k, with the position of the first of them.
#[tactic(auto, using(crate::proofs::Foreign::foreign_at))]
pub fn check_letters(k: u8, word: &[u8]) -> Result<(), WordFault>
    ensures { told (λ done. done) word_fault result ≡ letters_checked k word.now }
{
    match first_foreign(k, word) {
        Some(position) => Err(WordFault::ForeignLetter(position)),
        None => Ok(()),
    }
}

/// The position of the first letter that is not below k.
fn first_foreign(k: u8, word: &[u8]) -> Option<usize>
    ensures { result ≡ position (λ letter. nat_le k letter) word.now }
{
    word.iter().position(|letter| *letter >= k)
}
