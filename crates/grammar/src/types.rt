//! What reading a text keeps in mind: where it stands, and what each open parenthesis still wants.

use query::{Kind, Role};

/// What an open parenthesis still wants before it closes.
#[derive(Clone, Copy)]
pub enum Need {
    /// A number, then one part.
    Number,
    /// One part.
    One,
    /// At least one part.
    Least,
    /// Any count of parts.
    More,
    /// Nothing.
    Close,
}

/// An open parenthesis behind its operator word.
#[derive(Clone, Copy)]
pub struct Level {
    pub kind: Kind,
    pub need: Need,
    /// The index of its record.
    pub node: usize,
}

/// Where the reading of a text stands.
#[derive(Clone, Copy)]
pub enum Point {
    /// Before the first word.
    Start,
    /// Behind an opening parenthesis: an operator word that may stand in the role comes next.
    Opened(Role),
    /// Inside the innermost level, or behind the whole text where no level is open.
    Inside,
}

/// Why the words of a text are refused.
#[derive(Clone, Copy, PartialEq, Eq, Debug)]
pub enum GrammarFault {
    /// The first word after which no text can follow.
    Unexpected { place: usize },
    /// The text ends too early; the place is its length.
    Ended { place: usize },
    /// A number over 255, with an extra leading zero, or a length of 0.
    Number { place: usize },
    /// The word of a 65th record or of a 17th level.
    Limit { place: usize },
}
