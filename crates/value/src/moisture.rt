//! Moisture readings.

ghost use Rattle.std.specs.Prelude.{◌≡◌, true};
ghost use Rattle.value.specs.Made.{checked, numbered};
ghost use Rattle.value.specs.Readings.{reading_range, reading_zero, reading_rank};
ghost use Rattle.std.proofs.Common.{rules, arith};

use crate::{Value, ValueFault};

/// The sign bit of an `f32`.
const SIGN: u32 = 0x8000_0000;

/// A moisture reading from 0 to 100. Both zeros are readings.
#[derive(Clone, Copy)]
pub struct Moisture {
    reading: f32,
    ghost range: { reading_range reading ≡ true },
}

impl Moisture {
    /// The moisture of a reading, refused outside the range, as a NaN is.
    #[tactic(auto, using(crate::proofs::Differences::zero_bits, crate::proofs::Differences::hundred_bits))]
    pub fn new(reading: f32) -> Result<Moisture, ValueFault>
        ensures { numbered (λ m. m.reading) result ≡ checked (reading_range reading) reading }
    {
        if 0.0 <= reading && reading <= 100.0 {
            Ok(Moisture { reading })
        } else {
            Err(ValueFault::OutOfRange)
        }
    }

    pub fn reading(&self) -> f32
        ensures { result ≡ self.now.reading }
    {
        self.reading
    }
}

/// A step is the later reading minus the earlier, rounded once. Its rank is the low 31 bits of the
/// step as a whole number, negated if the sign bit is set, so that both zeros have rank 0.
impl Value for Moisture {
    ghost zero = { λ m. reading_zero m.reading };

    ghost rank = { λ earlier later. reading_rank earlier.reading later.reading };

    ghost near = { first_of (Prim.search rules, Prim.grind (arith, Self.row.coded.inj)) };

    #[tactic(auto, using(crate::proofs::Differences::zero_bits))]
    fn is_zero(&self) -> bool {
        self.reading == 0.0
    }

    #[tactic(auto, using(crate::proofs::Differences::difference_number))]
    fn rank_to(&self, later: &Moisture) -> i64 {
        let step = later.reading - self.reading;
        let bits = step.to_bits();
        let size = i64::from(bits % SIGN);
        if bits < SIGN { size } else { -size }
    }
}
