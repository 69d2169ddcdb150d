//! Why a query was not tidied.

/// Why a query was not tidied.
#[derive(Clone, Copy, PartialEq, Eq, Debug)]
pub enum TidyFault {
    /// The sheet has fewer than 64 records.
    Short,
    /// The records are no query that is bound, at most by 32 symbols.
    Unbound,
}
