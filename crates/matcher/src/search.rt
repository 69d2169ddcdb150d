//! A bound query and the line that it is searched on.

ghost use Rattle.std.specs.Prelude.{◌≡◌, true};
ghost use Rattle.query.specs.declared.node.Stage.TheVariants.{Bound};
ghost use Rattle.query.specs.Stands.{is_query};

use query::Node;
use steps::Steps;

// The records of a query that is bound by so many symbols, and the line that it is searched on.
#[derive(Clone, Copy)]
pub(crate) struct Search<'a> {
    pub(crate) records: &'a [Node],
    pub(crate) symbols: u8,
    pub(crate) steps: &'a Steps,
    pub(crate) ghost query: { is_query (Bound symbols) records.now ≡ true },
}
