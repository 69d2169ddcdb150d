//! Prices in hundredths.

ghost use Rattle.std.specs.Prelude.{◌≡◌, true, ◌-ℤ◌};
ghost use Rattle.value.specs.Made.{checked, numbered};
ghost use Rattle.value.specs.Prices.{price_range, price_zero};
ghost use Rattle.std.proofs.Common.{rules, arith};

use crate::{Value, ValueFault};

/// A price: a whole number of hundredths from −1,000,000,000 to 1,000,000,000.
#[derive(Clone, Copy)]
pub struct Price {
    hundredths: i32,
    ghost range: { price_range hundredths ≡ true },
}

impl Price {
    /// The price of so many hundredths, refused outside the range.
    pub fn new(hundredths: i64) -> Result<Price, ValueFault>
        ensures { numbered (λ p. p.hundredths) result ≡ checked (price_range hundredths) hundredths }
    {
        if -1_000_000_000 <= hundredths && hundredths <= 1_000_000_000 {
            Ok(Price {
                hundredths: hundredths as i32,
            })
        } else {
            Err(ValueFault::OutOfRange)
        }
    }

    pub fn hundredths(&self) -> i32
        ensures { result ≡ self.now.hundredths }
    {
        self.hundredths
    }
}

/// The rank of a step is the later price minus the earlier.
impl Value for Price {
    ghost zero = { λ p. price_zero p.hundredths };

    ghost rank = { λ earlier later. later.hundredths -ℤ earlier.hundredths };

    ghost near = { first_of (Prim.search rules, Prim.grind (arith, Self.row.coded.inj)) };

    fn is_zero(&self) -> bool {
        self.hundredths == 0
    }

    fn rank_to(&self, later: &Price) -> i64 {
        i64::from(later.hundredths) - i64::from(self.hundredths)
    }
}
