//! Whole numbers modulo 2^16 as a ring: the machine's operations where they wrap around.
ghost use Rattle.ring.specs.Modulo.{below_16, ring_16};
ghost use Rattle.ring_laws.proofs.Residues.{residue_laws};

use crate::modulo::Mod16;
use crate::ring::Ring;

impl Ring for Mod16 {
    ghost ring = { ring_16 };

    ghost laws = { residue_laws below_16 };

    fn zero() -> Mod16 {
        Mod16 { value: 0 }
    }

    fn one() -> Mod16 {
        Mod16 { value: 1 }
    }

    fn plus(self, other: Mod16) -> Mod16 {
        Mod16 {
            value: self.value.wrapping_add(other.value),
        }
    }

    fn negative(self) -> Mod16 {
        Mod16 {
            value: self.value.wrapping_neg(),
        }
    }

    fn times(self, other: Mod16) -> Mod16 {
        Mod16 {
            value: self.value.wrapping_mul(other.value),
        }
    }

    fn same(self, other: Mod16) -> bool {
        self.value == other.value
    }

    fn image(number: i16) -> Mod16 {
        Mod16 {
            value: number.cast_unsigned(),
        }
    }
}
