//! The lines of coordinates.
ghost use Rattle.std.specs.Prelude.{◌≡◌, ◌^◌, ◌≤◌, ◌++◌, length, Some, IfOk, OnOk};
ghost use Rattle.sheet_laws.specs.Coordinates.{Coordinates};
ghost use Rattle.coded_word.specs.Words.{word_of};
ghost use Rattle.bracket_table.specs.Seen.{view};
ghost use Rattle.text.specs.Lines.{number_line};
ghost use Rattle.table_text.specs.Lines.{coordinate_line};
ghost use Rattle.coords.specs.Printed.{line_of, lines_from, or_zero};
ghost use Rattle.coords.specs.Products.{ProductsPrint, IsWhole};

use crate::difference::difference;
use crate::products::Products;
use bracket_table::Table;
use coded_word::{CodedWord, Shape};
use grown_table::grow_all;
use ring::{Mod64, Ring};
use sheet::into;
use std::alloc::{AllocError, Global};
use table_text::write_coordinate_line;
use text::write_number_line;

/// The most bytes that the line of a coordinate has: 12 for the word, 20 for the value, a space and the line feed.
const LONGEST: usize = 34;

/// The lines of the coordinates of uv - vu, for a table of their shape that has room for all of its words.
#[tactic(auto, using(grown_table::proofs::Rooms::all_entries, crate::proofs::Converted::difference_size, crate::proofs::Converted::coordinates_printed))]
pub(crate) fn bracket_lines(
    heap: Global,
    table: &mut Table,
    products: Products,
) -> Result<Vec<u8>, AllocError>
    requires shape { (view table.old).shape ≡ Some (record { k = products.uv.shape.k; n = products.uv.shape.n }) }
    requires room { 1496 ≤ (view table.old).room }
    ensures { IfOk result (λ lines. ProductsPrint products lines.items) }
{
    let shape = products.uv.shape;
    grow_all(table);
    let mut sheet = difference(heap, products)?;
    convert(table, shape, &mut sheet);
    let lines = coordinate_lines(heap, shape, &sheet)?;
    with_zero(lines)
}

/// Replaces a sheet of the greatest length by its coordinates, for a table with every entry of the shape.
#[tactic(auto, using(crate::proofs::Converted::converts))]
fn convert<R: Ring>(table: &mut Table, shape: Shape, sheet: &mut [R])
    requires table { IsWhole shape (view table.old) }
    requires size { length sheet.old ≡ shape.k ^ shape.n }
    ensures { Coordinates R.ring shape.k shape.n sheet.old sheet.new }
{
    // no word of the shape is missing
    into(table, usize::from(shape.n), sheet).unwrap();
}

/// A line for each coordinate that is not zero, of the words of the greatest length.
#[tactic(auto, using(coded_word::proofs::Bounds::fits))]
fn coordinate_lines(
    heap: Global,
    shape: Shape,
    coordinates: &[Mod64],
) -> Result<Vec<u8>, AllocError>
    requires { length coordinates.now ≡ shape.k ^ shape.n }
    ensures { IfOk result (λ lines. lines.items ≡ lines_from shape.k shape.n 0 coordinates.now) }
{
    let mut lines = Vec::new(heap);
    for (code, coordinate) in coordinates.iter().enumerate() {
        let word = CodedWord {
            shape,
            length: shape.n,
            code: code as u16,
        };
        push_coordinate(&mut lines, word, coordinate.value)?;
    }
    Ok(lines)
}

/// Puts the line of a coordinate behind others, where it is not zero.
fn push_coordinate(lines: &mut Vec<u8>, word: CodedWord, value: u64) -> Result<(), AllocError>
    ensures { OnOk result (lines.new.items ≡ lines.old.items ++ line_of (word_of word) value) }
{
    if value == 0 {
        return Ok(());
    }
    push_line(lines, word, value)
}

/// Puts the line of a coordinate behind others.
#[tactic(auto, using(console::proofs::Lines::line_answered, console::proofs::Lines::line_in_front, crate::proofs::Sizes::coordinate_line_short))]
fn push_line(lines: &mut Vec<u8>, word: CodedWord, value: u64) -> Result<(), AllocError>
    ensures { OnOk result (lines.new.items ≡ lines.old.items ++ coordinate_line (word_of word) value) }
{
    // written into a lent buffer, as `console::fault_report` says
    let mut line = [0; LONGEST];
    let count = write_coordinate_line(word, value, &mut line).unwrap();
    lines.extend_from_slice(&line[..count])
}

/// Lines as they are, or the line of zero where there are none.
fn with_zero(mut lines: Vec<u8>) -> Result<Vec<u8>, AllocError>
    ensures { IfOk result (λ all. all.items ≡ or_zero lines.items) }
{
    if lines.is_empty() {
        push_zero(&mut lines)?;
    }
    Ok(lines)
}

/// Puts the line of zero behind others.
#[tactic(auto, using(console::proofs::Lines::line_answered, console::proofs::Lines::line_in_front, crate::proofs::Sizes::zero_line_short))]
fn push_zero(lines: &mut Vec<u8>) -> Result<(), AllocError>
    ensures { OnOk result (lines.new.items ≡ lines.old.items ++ number_line 0) }
{
    // written into a lent buffer, as `console::fault_report` says
    let mut line = [0; LONGEST];
    let count = write_number_line(0, &mut line).unwrap();
    lines.extend_from_slice(&line[..count])
}
