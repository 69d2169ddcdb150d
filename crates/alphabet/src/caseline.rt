//! The alphabet of the case line.

ghost use Rattle.std.specs.Prelude.{◌≡◌};
ghost use Rattle.alphabet.specs.CaseAlphabet.{case_names, case_bounds};
ghost use Rattle.alphabet.specs.Symbols.{names_of, bounds_of};

use crate::name::Name;
use crate::symbol::Symbol;
use crate::{Alphabet, Asked, Bounds};
use fixed::List;

// Each symbol's name and bounds.
const SYMBOLS: [(&[u8], Bounds); 8] = [
    (
        b"up",
        Bounds {
            low: 5,
            high: 19,
            ..Bounds::LEVEL
        },
    ),
    (
        b"Up",
        Bounds {
            low: 20,
            high: 100,
            ..Bounds::LEVEL
        },
    ),
    (
        b"down",
        Bounds {
            low: -19,
            high: -5,
            ..Bounds::LEVEL
        },
    ),
    (
        b"Down",
        Bounds {
            low: -100,
            high: -19,
            ..Bounds::LEVEL
        },
    ),
    (
        b"appears",
        Bounds {
            low: 0,
            high: 100,
            first: Asked::Zero,
            last: Asked::Nonzero,
        },
    ),
    (
        b"disappears",
        Bounds {
            low: -100,
            high: 0,
            first: Asked::Nonzero,
            last: Asked::Zero,
        },
    ),
    (
        b"stable",
        Bounds {
            low: -4,
            high: 4,
            ..Bounds::LEVEL
        },
    ),
    (
        b"zero",
        Bounds {
            low: 0,
            high: 0,
            first: Asked::Zero,
            last: Asked::Zero,
        },
    ),
];

impl Alphabet {
    /// The alphabet of the case line: up, Up, down, Down, appears, disappears, stable and zero.
    pub fn new() -> Alphabet
        ensures names { names_of result ≡ case_names }
        ensures bounds { bounds_of result ≡ case_bounds }
    {
        let mut symbols = List::new(Symbol::blank());
        for (name, bounds) in SYMBOLS {
            symbols.push(Symbol {
                name: Name::of(name),
                bounds,
            });
        }
        Alphabet { symbols }
    }
}
