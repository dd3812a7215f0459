//! Whole numbers modulo a power of two.
ghost use Rattle.std.specs.Prelude.{◌<◌, ◌^◌};

/// A whole number modulo 2^64.
// laid out as in C, where it is a `uint64_t`
#[repr(C)]
#[derive(Clone, Copy, PartialEq, Eq, Debug)]
pub struct Mod64 {
    pub value: u64,
    ghost fits: { value < 2 ^ 64 },
}

/// A whole number modulo 2^16.
#[derive(Clone, Copy, PartialEq, Eq, Debug)]
pub struct Mod16 {
    pub value: u16,
    ghost fits: { value < 2 ^ 16 },
}
