//! The records at which the parts of a whole stand, one after another.

ghost use Rattle.std.specs.Prelude.{ℕ};
ghost use Rattle.query.specs.declared.node.Role.{Role};
ghost use Rattle.walk.specs.Seeing.{Parts};

use crate::walk::Walk;

/// The records at which so many parts stand, the first at a record.
#[derive(Drop)]
pub(crate) struct Places<'a> {
    pub(crate) walk: Walk<'a>,
    pub(crate) at: usize,
    pub(crate) count: u8,
    ghost stand: { ∥ ((d : ℕ) × (r : Role) × Parts walk d r count at) ∥₁ },
}
