//! The two truth values as a ring.
ghost use Rattle.ring_laws.specs.Bits.{bits};
ghost use Rattle.ring_laws.proofs.Bits.{bit_laws};

use crate::ring::Ring;

/// The sum is exclusive or, the product and. A whole number's image says whether it is odd.
impl Ring for bool {
    ghost ring = { bits };

    ghost laws = { bit_laws };

    fn zero() -> bool {
        false
    }

    fn one() -> bool {
        true
    }

    fn plus(self, other: bool) -> bool {
        self ^ other
    }

    fn negative(self) -> bool {
        self
    }

    fn times(self, other: bool) -> bool {
        self & other
    }

    fn same(self, other: bool) -> bool {
        self == other
    }

    fn image(number: i16) -> bool {
        number.unsigned_abs() % 2 == 1
    }
}
