//! Words of letter numbers.
ghost use Rattle.std.specs.Prelude.{◌≡◌, length};
ghost use Rattle.c_interface.specs.Answers.{answer_or, fault_of};
ghost use Rattle.c_interface.specs.Calls.{factor_by, starts_left};
ghost use Rattle.faults.specs.Outcome.{told};

use crate::fault::{PlainFault, settle};
use faults::Fault;
use lent_list::LentList;
use letter_order::ByValue;
use word::factor;

/// Where the factors of a word of letter numbers start, and how many there are.
#[unsafe(no_mangle)]
pub extern "C" fn lyndon_factor(word: &[u8], starts: &mut [u16], count: &mut usize) -> PlainFault
    ensures fault { result ≡ fault_of (factor_by word.now (length starts.old)) }
    ensures starts { starts.new ≡ starts_left word.now starts.old }
    ensures count { count.new ≡ answer_or (factor_by word.now (length starts.old)) count.old }
{
    settle(factor_starts(word, starts), count)
}

/// Writes the starts, and answers how many there are.
fn factor_starts(word: &[u8], starts: &mut [u16]) -> Result<usize, Fault>
    ensures count { told (λ n. n) (λ f. f) result ≡ factor_by word.now (length starts.old) }
    ensures starts { starts.new ≡ starts_left word.now starts.old }
{
    let mut list = LentList::new(starts);
    Ok(factor(&ByValue, word, &mut list)?)
}
