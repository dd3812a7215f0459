//! Coefficient sheets over any commutative ring.

#![tactic(auto)]

mod adding;
mod checks;
mod converting;
mod expanding;
mod expansion;
mod fault;
mod joining;
mod places;
mod product;
mod recognizing;
mod sum;

pub use converting::{back, into};
pub use expanding::expand;
pub use fault::SheetFault;
pub use joining::join;
pub use recognizing::lie;

#[cfg(test)]
mod tests {
    use super::*;
    use bracket_table::Table;
    use lyndon::Entry;
    use ring::{Mod16, Mod64, Ring};

    /// P of 00101 over two letters, as another program has it.
    const POLYNOMIAL: [i16; 32] = [
        0, 0, 0, 0, 0, 1, -1, 0, 0, -3, 4, 0, -1, 0, 0, 0, 0, 2, -3, 0, 1, 0, 0, 0, 0, 0, 0, 0, 0,
        0, 0, 0,
    ];

    /// A sheet of length 5 over two letters, and its coordinates, as another program has them.
    const SHEET: [i16; 32] = [
        -5, 2, -2, 5, 1, -3, 4, 0, -4, 3, -1, -5, 2, -2, 5, 1, -3, 4, 0, -4, 3, -1, -5, 2, -2, 5,
        1, -3, 4, 0, -4, 3,
    ];

    const COORDINATES: [i16; 32] = [
        -5, 2, 6, 5, 7, 7, 16, 0, 0, 24, 31, -5, 21, -17, -2, 1, -6, 14, 46, -9, 59, -33, -25, 6,
        15, -16, -36, 9, -2, 4, -4, 3,
    ];

    /// A table of the shape 2, 5 with as many entries as the memory holds.
    fn grown(memory: &mut [Entry]) -> Table<'_> {
        let mut table = Table::fresh(memory);
        // grow is refused where the memory is full
        let _ = table.open(2, 5);
        for _ in 0..14_u8 {
            let _ = table.grow();
        }
        table
    }

    /// Whether it is what both calls make of it: 00101 is entry 10, with the parts 3 and 2.
    fn is_written<R: Ring>(
        table: &mut Table,
        own: &mut [R],
        left: &mut [R],
        right: &mut [R],
        both: &mut [R],
    ) -> bool {
        let mut alike = expand(table, 10, own).is_ok()
            && expand(table, 3, left).is_ok()
            && expand(table, 2, right).is_ok()
            && join(table, 3, left, 2, right, both).is_ok();
        for ((x, y), expected) in own.iter().zip(both.iter()).zip(&POLYNOMIAL) {
            let value = R::image(*expected);
            alike = alike && x.same(value) && y.same(value);
        }
        alike
    }

    fn write<R: Ring>(values: &[i16], sheet: &mut [R]) {
        for (place, value) in values.iter().enumerate() {
            if place < sheet.len() {
                sheet[place] = R::image(*value);
            }
        }
    }

    fn holds<R: Ring>(sheet: &[R], values: &[i16]) -> bool {
        let mut alike = sheet.len() == values.len();
        for (value, expected) in sheet.iter().zip(values) {
            alike = alike && value.same(R::image(*expected));
        }
        alike
    }

    /// Whether the sheet is replaced by its coordinates, and these by the sheet.
    fn is_converted<R: Ring>(table: &mut Table, sheet: &mut [R]) -> bool {
        write(&SHEET, sheet);
        let there = into(table, 5, sheet).is_ok() && holds(sheet, &COORDINATES);
        there && back(table, 5, sheet).is_ok() && holds(sheet, &SHEET)
    }

    /// Whether the coordinates of entry 10 are at Lyndon words alone, and those of the other sheet are not.
    fn is_told_apart<R: Ring>(table: &mut Table, sheet: &mut [R]) -> bool {
        let written = expand(table, 10, sheet).is_ok() && into(table, 5, sheet).is_ok();
        let alone = written && lie(table, 5, sheet) == Ok(true);
        write(&COORDINATES, sheet);
        alone && lie(table, 5, sheet) == Ok(false)
    }

    #[test]
    fn an_entry_is_expanded_and_joined(rt: HostRuntime) {
        let mut memory = [Entry::default(); 11];
        let mut table = grown(&mut memory);
        let zero = Mod64::zero();
        assert!(rt;
            is_written(
                &mut table,
                &mut [zero; 32],
                &mut [zero; 8],
                &mut [zero; 4],
                &mut [zero; 32]
            )
        );
        let zero = Mod16::zero();
        assert!(rt;
            is_written(
                &mut table,
                &mut [zero; 32],
                &mut [zero; 8],
                &mut [zero; 4],
                &mut [zero; 32]
            )
        );
        assert!(rt;
            is_written(
                &mut table,
                &mut [false; 32],
                &mut [false; 8],
                &mut [false; 4],
                &mut [false; 32]
            )
        );
    }

    #[test]
    fn a_sheet_is_converted(rt: HostRuntime) {
        let mut memory = [Entry::default(); 14];
        let mut table = grown(&mut memory);
        assert!(rt; is_converted(&mut table, &mut [Mod64::zero(); 32]));
        assert!(rt; is_converted(&mut table, &mut [Mod16::zero(); 32]));
        assert!(rt; is_converted(&mut table, &mut [false; 32]));
        assert!(rt; is_told_apart(&mut table, &mut [Mod64::zero(); 32]));
        assert!(rt; is_told_apart(&mut table, &mut [Mod16::zero(); 32]));
        assert!(rt; is_told_apart(&mut table, &mut [false; 32]));
    }

    #[test]
    fn a_word_is_missing(rt: HostRuntime) {
        let mut memory = [Entry::default(); 13];
        let mut table = grown(&mut memory);
        let mut sheet = [Mod64::one(); 32];
        assert!(rt; into(&mut table, 5, &mut sheet) == Err(SheetFault::Incomplete));
        assert!(rt; into(&mut table, 4, &mut sheet[..16]).is_ok());
    }
}
