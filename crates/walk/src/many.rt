//! How many of something a record asks for.

ghost use Rattle.std.specs.Prelude.{◌≡◌};
ghost use Rattle.walk.specs.Walk.{many_of as manyOf};

use query::{Kind, Node};
use wholes::Many;

// How many pieces or stretches the record asks for.
pub(crate) fn many_of(node: Node) -> Many
    ensures { result ≡ manyOf node.kind node.number }
{
    match node.kind {
        Kind::Exact | Kind::Precisely => Many::Exactly(node.number),
        Kind::Atleast | Kind::Noless => Many::AtLeast(node.number),
        _ => Many::AtMost(node.number),
    }
}
