//! The sheet of uv - vu.
ghost use Rattle.std.specs.Prelude.{◌≡◌, ◌^◌, ◌<◌, length, replicate, IfOk, slice_set, slice_index_or};
ghost use Rattle.ring.specs.Modulo.{ring_64};
ghost use Rattle.coords.specs.Products.{difference_of};

use crate::products::Products;
use ring::{Mod64, Ring};
use std::alloc::{AllocError, Global};

/// The sheet of uv - vu.
#[tactic(auto, using(coded_word::proofs::Bounds::fits))]
pub(crate) fn difference(heap: Global, products: Products) -> Result<Vec<Mod64>, AllocError>
    ensures { IfOk result (λ sheet. sheet.items ≡ difference_of ring_64 products) }
{
    let shape = products.uv.shape;
    let size = usize::from(shape.k).pow(u32::from(shape.n));
    let mut sheet = vec![in heap; Mod64::zero(); size]?;
    write_difference(products, &mut sheet);
    Ok(sheet)
}

/// Writes uv - vu over zeros.
#[tactic(auto, using(crate::proofs::Written::difference_written))]
fn write_difference<R: Ring>(products: Products, sheet: &mut [R])
    requires { sheet.old ≡ replicate (products.uv.shape.k ^ products.uv.shape.n) R.ring.zero }
    ensures { sheet.new ≡ difference_of R.ring products }
{
    add_at(usize::from(products.uv.code), R::one(), sheet);
    add_at(usize::from(products.vu.code), R::one().negative(), sheet);
}

/// Adds to the value at a place of a sheet.
fn add_at<R: Ring>(place: usize, value: R, sheet: &mut [R])
    requires { place < length sheet.old }
    ensures { sheet.new ≡ slice_set sheet.old place (R.ring.plus (slice_index_or sheet.old place R.ring.zero) value) }
{
    sheet[place] = sheet[place].plus(value);
}
