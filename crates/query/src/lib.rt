//! Queries as records in a sheet, and the check that records are a query.

#![tactic(auto)]

ghost use Rattle.std.specs.Prelude.{◌≡◌, ◌+◌, ◌&&◌, length, Decides, nat_le};
ghost use Rattle.query.specs.Kinds.{kind_number, repeats};
ghost use Rattle.query.specs.Rules.{allows, AreQuery};
ghost use Rattle.query.specs.Rules.{part_role as partRole, parts_right, number_right as numberRight, record_right};
ghost use Rattle.query.specs.Laws.{Stands, ReadsBack, EqualButForWords};
ghost use Rattle.query.specs.Stands.{blank};
ghost use Rattle.query.specs.Stands.{end_at, is_at, is_query as isQuery};
ghost use Rattle.query.specs.declared.node.Role.TheVariants.{Shape};

mod node;

pub use node::{Kind, Node, Role, Stage};

impl Kind {
    /// The kind's number, 0 to 12.
    pub fn number(self) -> u8
        ensures { result ≡ kind_number self }
    {
        self as u8
    }

    /// Whether the kind may stand in the role.
    pub fn may_stand(self, role: Role) -> bool
        ensures { result ≡ allows role self }
    {
        match self {
            Kind::Symbol
            | Kind::Any
            | Kind::Concat
            | Kind::Exact
            | Kind::Atleast
            | Kind::Atmost
            | Kind::In => { matches!(role, Role::Shape) }
            Kind::Precisely | Kind::Noless | Kind::Nomore | Kind::And | Kind::Or => {
                matches!(role, Role::Window | Role::Count)
            }
            Kind::Inorder => matches!(role, Role::Window),
        }
    }

    /// The role of the kind's parts.
    pub fn part_role(self) -> Role
        ensures { result ≡ partRole self }
    {
        match self {
            Kind::In => Role::Window,
            Kind::And | Kind::Or => Role::Count,
            _ => Role::Shape,
        }
    }

    /// Whether the kind is exact, atleast or atmost.
    pub fn is_repeat(self) -> bool
        ensures { result ≡ repeats self }
    {
        matches!(self, Kind::Exact | Kind::Atleast | Kind::Atmost)
    }

    /// Whether the kind may have so many parts.
    pub fn takes_parts(self, parts: u8) -> bool
        ensures { result ≡ parts_right self parts }
    {
        match self {
            Kind::Symbol => parts == 0,
            Kind::Any => true,
            Kind::Concat | Kind::And | Kind::Or | Kind::Inorder => parts > 0,
            _ => parts == 1,
        }
    }
}

impl Node {
    /// A blank record: all zeros, which is a symbol 0.
    pub fn blank() -> Node
        ensures { result ≡ blank }
    {
        Node::default()
    }

    /// Where the record's word ends in the text.
    pub fn word_end(self) -> usize
        ensures { result ≡ self.place + self.length }
    {
        usize::from(self.place) + usize::from(self.length)
    }

    // Whether the number is one that the kind takes at this stage.
    fn number_right(self, stage: Stage) -> bool
        ensures { result ≡ numberRight stage self.kind self.number self.place self.length }
    {
        match self.kind {
            Kind::Symbol => match stage {
                Stage::Read(text) => self.number == 255 && self.word_end() <= text,
                Stage::Bound(symbols) => self.number < symbols,
            },
            Kind::In => self.number > 0,
            Kind::Any | Kind::Concat | Kind::And | Kind::Or | Kind::Inorder => self.number == 0,
            _ => true,
        }
    }

    // Whether the record by itself may stand in the role.
    fn right(self, role: Role, stage: Stage) -> bool
        ensures { result ≡ record_right stage role self }
    {
        self.kind.may_stand(role) && self.kind.takes_parts(self.parts) && self.number_right(stage)
    }
}

// The index after the query that stands at index i and keeps the rules in this role, where one does.
fn tree_end(records: &[Node], i: usize, role: Role, stage: Stage, levels: u8) -> Option<usize>
    ensures { result ≡ end_at stage levels records.now role i }
{
    if levels == 0 || i >= records.len() {
        return None;
    }
    let node = records[i];
    if !node.right(role, stage) {
        return None;
    }
    let inner = node.kind.part_role();
    let mut next = i + 1;
    // Plain recursion with the levels left falling is a rule of the project: no iterator goes down for it.
    for k in 0..node.parts {
        next = tree_end(records, next, inner, stage, levels - 1)?;
    }
    Some(next)
}

/// Whether the records are a query that has come to this stage.
#[tactic(auto, unfolding(crate::specs::Stands::is_query))]
pub fn is_query(records: &[Node], stage: Stage) -> bool
    ensures answer { result ≡ isQuery stage records.now }
    ensures exact { Decides result (AreQuery stage records.now) }
{
    let few = records.len() <= 64;
    few && tree_end(records, 0, Role::Shape, stage, 16) == Some(records.len())
}

/// A query is given back by its records, so no two queries have the same.
#[tactic(auto, using(crate::proofs::Standing::reads_back))]
pub fn records_read_back()
    ensures { ReadsBack }
{}

/// Records that are found to be a query are those of the query that stands in them.
pub fn records_stand()
    ensures { Stands }
{}

/// Queries are equal just where they differ in nothing but the places of their words.
#[tactic(auto, using(crate::proofs::Alike::equal_but_for_words))]
pub fn equal_but_for_words()
    ensures { EqualButForWords }
{}

#[cfg(test)]
mod tests;
