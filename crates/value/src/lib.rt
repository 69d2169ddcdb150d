//! Kinds of value: whether a value is zero, and the rank of the step from one value to the next.

#![tactic(auto)]

ghost use Rattle.std.specs.Prelude.{◌≡◌, Bool, ℤ};
ghost use Rattle.value.specs.Steps.{Near};

mod fault;
mod moisture;
mod price;

pub use fault::ValueFault;
pub use moisture::Moisture;
pub use price::Price;

/// A kind of value. Code over any kind knows what stands here and nothing else.
pub trait Value: Copy {
    ghost zero: { Self → Bool };

    /// The rank of the step from the first value to the second.
    ghost rank: { Self → Self → ℤ };

    fn is_zero(&self) -> bool
        ensures { result ≡ zero self.now };

    /// The rank of the step from this value to a later one.
    fn rank_to(&self, later: &Self) -> i64
        ensures { result ≡ rank self.now later.now };

    ghost near: { (earlier later : Self) → Near (rank earlier later) };
}

#[cfg(test)]
mod tests;
