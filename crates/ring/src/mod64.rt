//! Whole numbers modulo 2^64 as a ring: the machine's operations where they wrap around.
ghost use Rattle.ring.specs.Modulo.{below_64, ring_64};
ghost use Rattle.ring_laws.proofs.Residues.{residue_laws};

use crate::modulo::Mod64;
use crate::ring::Ring;

impl Ring for Mod64 {
    ghost ring = { ring_64 };

    ghost laws = { residue_laws below_64 };

    fn zero() -> Mod64 {
        Mod64 { value: 0 }
    }

    fn one() -> Mod64 {
        Mod64 { value: 1 }
    }

    fn plus(self, other: Mod64) -> Mod64 {
        Mod64 {
            value: self.value.wrapping_add(other.value),
        }
    }

    fn negative(self) -> Mod64 {
        Mod64 {
            value: self.value.wrapping_neg(),
        }
    }

    fn times(self, other: Mod64) -> Mod64 {
        Mod64 {
            value: self.value.wrapping_mul(other.value),
        }
    }

    fn same(self, other: Mod64) -> bool {
        self.value == other.value
    }

    fn image(number: i16) -> Mod64 {
        Mod64 {
            value: i64::from(number).cast_unsigned(),
        }
    }
}
