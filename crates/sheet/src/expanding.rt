//! P of an entry as a sheet.
ghost use Rattle.std.specs.Prelude.{◌≡◌, ℕ, ◌^◌, ◌<◌, length, MatchResult, slice_index_or};
ghost use Rattle.std.specs.List.{slice_get};
ghost use Rattle.bracket_table.specs.Runs.{next};
ghost use Rattle.bracket_table.specs.Runs.Call.{Expand};
ghost use Rattle.bracket_table.specs.Seen.{view};
ghost use Rattle.coded_word.specs.Words.{word_of};
ghost use Rattle.faults.specs.Outcome.{told};
ghost use Rattle.polynomial.specs.Polynomials.{P};
ghost use Rattle.polynomial.specs.Theorems.{BracketPolynomials};
ghost use Rattle.sheet.specs.Calls.{expand_outcome, expanded_in};
ghost use Rattle.sheet.specs.Faults.{sheet_fault};
ghost use Rattle.sheet_laws.specs.Sheets.{sheet_of};

use crate::adding::add_polynomial;
use crate::checks::check_size;
use crate::expansion::ROOM;
use crate::fault::SheetFault;
use bracket_table::Table;
use coded_word::CodedWord;
use ring::Ring;
use sheet_laws::Term;

/// Writes P of an entry to a sheet of its length, the whole coefficients by their images.
#[tactic(auto, using(polynomial::proofs::Theorems::bracket_polynomials, crate::proofs::Expanded::entry_some, crate::proofs::Expanded::entry_short, crate::proofs::Expanded::entry_coded))]
pub fn expand<R: Ring>(table: &mut Table, number: usize, sheet: &mut [R]) -> Result<(), SheetFault>
    ensures outcome { told (λ done. done) sheet_fault result ≡ expand_outcome (view table.old) number (length sheet.old) }
    ensures sheet { MatchResult result
        (λ _. sheet.new ≡ expanded_in R.ring (view table.old).shape (slice_get (view table.old).entries number))
        (λ _. sheet.new ≡ sheet.old) }
    ensures step { view table.new ≡ next (Expand number (length sheet.old)) (view table.old) }
    ensures same { table.new ≡ table.old }
    ensures polynomials { BracketPolynomials }
{
    let shape = table.shape()?;
    let entry = table.look(number)?;
    check_size(shape, usize::from(entry.length), sheet.len())?;
    let word = CodedWord {
        shape,
        length: entry.length,
        code: entry.code,
    };
    write_polynomial(word, sheet);
    Ok(())
}

/// Writes P of a word.
#[tactic(auto, using(crate::proofs::Expanded::raised_from_zero))]
fn write_polynomial<R: Ring>(word: CodedWord, sheet: &mut [R])
    requires { length sheet.old ≡ word.shape.k ^ word.length }
    ensures { sheet.new ≡ sheet_of word.shape.k word.length (λ u. R.ring.image (P (word_of word) u)) }
{
    let mut memory = [Term::default(); ROOM];
    clear(sheet);
    add_polynomial(word, R::one(), sheet, &mut memory);
}

/// Writes zero everywhere.
// not by `fill`, which asks that copies are made without fail
fn clear<R: Ring>(sheet: &mut [R])
    ensures { (p : ℕ) → p < length sheet.old → slice_index_or sheet.new p R.ring.zero ≡ R.ring.zero }
{
    for value in sheet.iter_mut() {
        *value = R::zero();
    }
}
