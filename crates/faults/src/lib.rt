//! What a refused call says: which fault, who found it, and where.

#![tactic(auto)]

ghost use Rattle.std.specs.Prelude.{◌≡◌};
ghost use Rattle.faults.specs.Faults.{found, passed};

/// A layer of the library: it finds faults, or passes up those of a layer below.
#[derive(Clone, Copy, PartialEq, Eq, Debug)]
pub enum Layer {
    Word,
    Text,
    Table,
    Sheet,
}

/// Up to three layers, lowest first: as many as stand above the lowest.
// three fields, and no array of options: each place has a name, and no index can be wrong
#[derive(Clone, Copy, PartialEq, Eq, Debug)]
pub struct Names {
    pub first: Option<Layer>,
    pub second: Option<Layer>,
    pub third: Option<Layer>,
}

/// A fault, as the caller of the highest layer gets it.
#[derive(Clone, Copy, PartialEq, Eq, Debug)]
pub struct Fault {
    /// Which fault it is.
    // a number, and no enum of all: each layer has an enum of its own faults, and the rules number them across layers
    pub number: u8,
    /// The layer that found it.
    pub layer: Layer,
    /// The byte of a text that it is about, or 0.
    // as the rules have it, and so the position: 0 where none is named
    pub place: usize,
    /// The letter of a word that it is about, or 0.
    pub position: usize,
    /// The layers that passed it up.
    pub passed: Names,
}

impl Fault {
    /// A fault that a layer finds.
    pub fn found(number: u8, layer: Layer, place: usize, position: usize) -> Fault
        ensures { result ≡ found number layer place position }
    {
        let passed = Names {
            first: None,
            second: None,
            third: None,
        };
        Fault {
            number,
            layer,
            place,
            position,
            passed,
        }
    }

    /// The fault as a layer above passes it up: whole, with the name of that layer.
    pub fn passed_by(self, layer: Layer) -> Fault
        ensures { result ≡ passed layer self }
    {
        let mut passed = self.passed;
        if passed.first.is_none() {
            passed.first = Some(layer);
        } else if passed.second.is_none() {
            passed.second = Some(layer);
        } else if passed.third.is_none() {
            passed.third = Some(layer);
        }
        Fault { passed, ..self }
    }
}
