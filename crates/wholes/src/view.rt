//! From where stretches are seen, and how many of something there may be.

/// From where each stretch is seen: from one position, or each from its own start.
#[derive(Clone, Copy)]
pub enum View {
    From(usize),
    Own,
}

/// How many pieces a repeat may have, or how many stretches may lie in a window.
#[derive(Clone, Copy)]
pub enum Many {
    Exactly(u8),
    AtLeast(u8),
    AtMost(u8),
}
