//! The records that a query is written as.

/// What a record says: a symbol, or one of the twelve operators.
#[derive(Clone, Copy, PartialEq, Eq, Debug, Default)]
pub enum Kind {
    #[default]
    Symbol,
    Any,
    Concat,
    Exact,
    Atleast,
    Atmost,
    In,
    Precisely,
    Noless,
    Nomore,
    And,
    Or,
    Inorder,
}

/// One record of a query. Its parts follow it, each with its own parts behind it.
#[derive(Clone, Copy, PartialEq, Eq, Debug, Default)]
pub struct Node {
    pub kind: Kind,
    /// The symbol, the count or the length that goes with the kind, else 0.
    pub number: u8,
    /// How many parts it has.
    pub parts: u8,
    /// Where its word begins in the text, in bytes from 0.
    pub place: u16,
    /// How many bytes its word has.
    pub length: u16,
}

/// Where a record stands, which says what kinds it may be.
#[derive(Clone, Copy)]
pub enum Role {
    /// The root, and every part but those below.
    Shape,
    /// The part of `in`.
    Window,
    /// A part of `and` or of `or`.
    Count,
}

/// How far a query has come, which says what the records of its symbols hold.
#[derive(Clone, Copy)]
pub enum Stage {
    /// Read from a text of so many bytes: each symbol is still a word of that text.
    Read(usize),
    /// Bound by an alphabet of so many symbols: each symbol is one of these.
    Bound(u8),
}
