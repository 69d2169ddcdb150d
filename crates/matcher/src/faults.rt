//! Why a fit or a listing is refused.

// Two cases are the same in both: a fault type of its own for each stage is a rule of the project.

/// Why a fit is refused.
#[derive(Clone, Copy, PartialEq, Eq, Debug)]
pub enum FitFault {
    /// The node sheet has fewer than 64 records.
    Sheet,
    /// The records are no bound query.
    Records,
    /// There is no such stretch on the line, which has so many steps.
    Stretch(usize),
}

/// Why a listing is refused.
#[derive(Clone, Copy, PartialEq, Eq, Debug)]
pub enum ListFault {
    /// The node sheet has fewer than 64 records.
    Sheet,
    /// The records are no bound query.
    Records,
    /// The buffer holds fewer than so many stretches.
    Buffer(usize),
}
