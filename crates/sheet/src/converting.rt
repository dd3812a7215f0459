//! Coordinates of sheets, in place.
ghost use Rattle.std.specs.Prelude.{◌≡◌, ◌^◌, ◌≤◌, MatchResult, length};
ghost use Rattle.bracket_table.specs.Runs.{next};
ghost use Rattle.bracket_table.specs.Runs.Call.{Into, Back};
ghost use Rattle.bracket_table.specs.Seen.{view};
ghost use Rattle.faults.specs.Outcome.{told};
ghost use Rattle.sheet.specs.Calls.{IntoLeaves, back_leaves, conversion_outcome};
ghost use Rattle.sheet.specs.Faults.{sheet_fault};
ghost use Rattle.sheet_laws.specs.Coordinates.{EverySheet};
ghost use Rattle.sheet_laws.specs.Steps.{taken_out, reduced, put_back, restored};

use crate::adding::add_polynomial;
use crate::checks::check_conversion;
use crate::expansion::ROOM;
use crate::fault::SheetFault;
use crate::places::{is_zero, word_at};
use bracket_table::Table;
use coded_word::{CodedWord, Shape};
use ring::Ring;
use sheet_laws::Term;

/// Replaces a sheet of length m by its coordinates: the values c(w) for which the sheet is the sum of all c(w) P(w).
#[tactic(auto, using(sheet_laws::proofs::Coordinates::every_sheet, crate::proofs::StepByStep::all_reduced))]
pub fn into<R: Ring>(table: &mut Table, m: usize, sheet: &mut [R]) -> Result<(), SheetFault>
    ensures outcome { told (λ done. done) sheet_fault result ≡ conversion_outcome (view table.old) m (length sheet.old) }
    ensures sheet { MatchResult result
        (λ _. IntoLeaves R.ring (view table.old).shape m sheet.old sheet.new)
        (λ _. sheet.new ≡ sheet.old) }
    ensures step { view table.new ≡ next (Into m (length sheet.old)) (view table.old) }
    ensures same { table.new ≡ table.old }
    ensures one_set { EverySheet R.ring }
{
    let shape = check_conversion(table, m, sheet.len())?;
    reduce(shape, m as u8, sheet);
    Ok(())
}

/// Replaces coordinates by the sheet of length m that has them.
#[tactic(auto, using(sheet_laws::proofs::Coordinates::every_sheet, crate::proofs::StepByStep::all_restored))]
pub fn back<R: Ring>(table: &mut Table, m: usize, sheet: &mut [R]) -> Result<(), SheetFault>
    ensures outcome { told (λ done. done) sheet_fault result ≡ conversion_outcome (view table.old) m (length sheet.old) }
    ensures sheet { MatchResult result
        (λ _. sheet.new ≡ back_leaves R.ring (view table.old).shape m sheet.old)
        (λ _. sheet.new ≡ sheet.old) }
    ensures step { view table.new ≡ next (Back m (length sheet.old)) (view table.old) }
    ensures same { table.new ≡ table.old }
    ensures one_set { EverySheet R.ring }
{
    let shape = check_conversion(table, m, sheet.len())?;
    restore(shape, m as u8, sheet);
    Ok(())
}

/// Replaces a sheet of length m by its coordinates.
fn reduce<R: Ring>(shape: Shape, m: u8, sheet: &mut [R])
    requires length { (1 ≤ m) × (m ≤ shape.n) }
    requires size { length sheet.old ≡ shape.k ^ m }
    ensures { sheet.new ≡ reduced R.ring shape.k m (shape.k ^ m) sheet.old }
{
    let mut memory = [Term::default(); ROOM];
    reduce_with(shape, m, sheet, &mut memory);
}

/// Replaces it word by word, the least word first: P of a word has no lesser words.
fn reduce_with<R: Ring>(shape: Shape, m: u8, sheet: &mut [R], memory: &mut [Term])
    requires length { (1 ≤ m) × (m ≤ shape.n) }
    requires size { length sheet.old ≡ shape.k ^ m }
    requires memory { 4106 ≤ length memory.old }
    ensures { sheet.new ≡ reduced R.ring shape.k m (shape.k ^ m) sheet.old }
{
    for place in 0..sheet.len() {
        take_out(word_at(shape, m, place), sheet, memory);
    }
}

/// Takes P of a word away so often as the sheet says at its place, which keeps this value.
#[tactic(auto, using(crate::proofs::StepByStep::none_taken, crate::proofs::StepByStep::one_taken))]
fn take_out<R: Ring>(word: CodedWord, sheet: &mut [R], memory: &mut [Term])
    requires size { length sheet.old ≡ word.shape.k ^ word.length }
    requires memory { 4106 ≤ length memory.old }
    ensures { sheet.new ≡ taken_out R.ring word.shape.k word.length word.code sheet.old }
{
    let place = usize::from(word.code);
    let coordinate = sheet[place];
    if is_zero(coordinate) {
        return;
    }
    add_polynomial(word, coordinate.negative(), sheet, memory);
    sheet[place] = coordinate;
}

/// Replaces coordinates by their sheet of length m.
fn restore<R: Ring>(shape: Shape, m: u8, sheet: &mut [R])
    requires length { (1 ≤ m) × (m ≤ shape.n) }
    requires size { length sheet.old ≡ shape.k ^ m }
    ensures { sheet.new ≡ restored R.ring shape.k m (shape.k ^ m) sheet.old }
{
    let mut memory = [Term::default(); ROOM];
    restore_with(shape, m, sheet, &mut memory);
}

/// Replaces them word by word, the greatest word first.
#[tactic(auto, using(crate::proofs::StepByStep::restored_less))]
fn restore_with<R: Ring>(shape: Shape, m: u8, sheet: &mut [R], memory: &mut [Term])
    requires length { (1 ≤ m) × (m ≤ shape.n) }
    requires size { length sheet.old ≡ shape.k ^ m }
    requires memory { 4106 ≤ length memory.old }
    ensures { sheet.new ≡ restored R.ring shape.k m (shape.k ^ m) sheet.old }
{
    for place in (0..sheet.len()).rev() {
        put_back(word_at(shape, m, place), sheet, memory);
    }
}

/// Adds P of a word so often as the coordinate at its place says, in its stead.
#[tactic(auto, using(crate::proofs::StepByStep::none_put, crate::proofs::StepByStep::one_put))]
fn put_back<R: Ring>(word: CodedWord, sheet: &mut [R], memory: &mut [Term])
    requires size { length sheet.old ≡ word.shape.k ^ word.length }
    requires memory { 4106 ≤ length memory.old }
    ensures { sheet.new ≡ put_back R.ring word.shape.k word.length word.code sheet.old }
{
    let place = usize::from(word.code);
    let coordinate = sheet[place];
    if is_zero(coordinate) {
        return;
    }
    sheet[place] = R::zero();
    add_polynomial(word, coordinate, sheet, memory);
}
