//! Texts that are read, bound and written, as examples. They stand apart from `text`, which is proved again for each of its tests.

#![tactic(auto)]

#[cfg(test)]
mod tests;
