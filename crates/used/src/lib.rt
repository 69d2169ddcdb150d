//! Which symbols a query uses: fitting looks at no others.

#![tactic(auto)]

ghost use Rattle.std.specs.Prelude.{◌≡◌, ℕ, ◌<◌};
ghost use Rattle.word.specs.Words.{has};
ghost use Rattle.used.specs.Uses.{symbol_word, used_in, SeesOnlyUsed, UsedByRecords};

use query::{Kind, Node};

// The symbol that the record is, as a word.
fn symbol_of(node: Node) -> u32
    ensures { result ≡ symbol_word node }
{
    if node.kind == Kind::Symbol && node.number < 32 {
        1 << node.number
    } else {
        0
    }
}

/// The symbols that the records use, as a word.
pub fn used(records: &[Node]) -> u32
    ensures { (j : ℕ) → j < 32 → has result j ≡ used_in records.now j }
{
    records.iter().fold(0, |word, node| word | symbol_of(*node))
}

/// The records of a query use the symbols that the query uses.
#[tactic(auto, using(crate::proofs::Seeing::used_by_records))]
pub fn used_by_records()
    ensures { UsedByRecords }
{}

/// A query fits alike on two lines of equal length whose steps carry alike the symbols that it uses.
#[tactic(auto, using(crate::proofs::Seeing::sees_only_used))]
pub fn sees_only_used()
    ensures { SeesOnlyUsed }
{}
