//! What a ring is.
ghost use Rattle.std.specs.Prelude.{◌≡◌, ◌↔◌, IsTrue};
ghost use Rattle.ring_laws.specs.Rings.{Operations, Laws};

/// A commutative ring, by its values. Nothing of a ring ever refuses.
pub trait Ring: Copy {
    /// What the ring does with its values.
    ghost ring: { Operations Self };

    fn zero() -> Self
        ensures { result ≡ ring.zero };

    fn one() -> Self
        ensures { result ≡ ring.one };

    /// The sum.
    fn plus(self, other: Self) -> Self
        ensures { result ≡ ring.plus self other };

    /// What added to the value gives zero.
    fn negative(self) -> Self
        ensures { result ≡ ring.negative self };

    /// The product.
    fn times(self, other: Self) -> Self
        ensures { result ≡ ring.times self other };

    /// Whether two values are the same.
    fn same(self, other: Self) -> bool
        ensures { IsTrue result ↔ (self ≡ other) };

    /// What a whole number is in the ring.
    fn image(number: i16) -> Self
        ensures { result ≡ ring.image number };

    ghost laws: { Laws ring };
}
