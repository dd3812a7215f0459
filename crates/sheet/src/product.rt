//! Products of sheets.
ghost use Rattle.std.specs.Prelude.{◌≡◌, ◌*◌, length};
ghost use Rattle.sheet.specs.Products.{multiple, product, minus};

use ring::Ring;

/// Writes xy - yx.
pub(crate) fn write_bracket<R: Ring>(x: &[R], y: &[R], sheet: &mut [R])
    requires { length sheet.old ≡ length x.now * length y.now }
    ensures { sheet.new ≡ minus R.ring (product R.ring x.now y.now) (product R.ring y.now x.now) }
{
    write_product(x, y, sheet);
    subtract_product(y, x, sheet);
}

/// Writes xy.
pub(crate) fn write_product<R: Ring>(x: &[R], y: &[R], sheet: &mut [R])
    requires { length sheet.old ≡ length x.now * length y.now }
    ensures { sheet.new ≡ product R.ring x.now y.now }
{
    for (i, value) in x.iter().enumerate() {
        let start = i * y.len();
        write_multiple(*value, y, &mut sheet[start..start + y.len()]);
    }
}

/// Takes xy away.
#[tactic(auto, using(crate::proofs::Products::row_taken))]
pub(crate) fn subtract_product<R: Ring>(x: &[R], y: &[R], sheet: &mut [R])
    requires { length sheet.old ≡ length x.now * length y.now }
    ensures { sheet.new ≡ minus R.ring sheet.old (product R.ring x.now y.now) }
{
    for (i, value) in x.iter().enumerate() {
        let start = i * y.len();
        subtract_multiple(*value, y, &mut sheet[start..start + y.len()]);
    }
}

/// Writes a value times each of a row.
fn write_multiple<R: Ring>(value: R, row: &[R], sheet: &mut [R])
    requires { length sheet.old ≡ length row.now }
    ensures { sheet.new ≡ multiple R.ring value row.now }
{
    for (j, other) in row.iter().enumerate() {
        sheet[j] = value.times(*other);
    }
}

/// Takes a value times each of a row away.
#[tactic(auto, using(crate::proofs::Products::place_taken))]
fn subtract_multiple<R: Ring>(value: R, row: &[R], sheet: &mut [R])
    requires { length sheet.old ≡ length row.now }
    ensures { sheet.new ≡ minus R.ring sheet.old (multiple R.ring value row.now) }
{
    for (j, other) in row.iter().enumerate() {
        sheet[j] = sheet[j].plus(value.times(*other).negative());
    }
}
