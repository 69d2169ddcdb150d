//! Sheets and alphabets by example.

#![tactic(auto)]

#[cfg(test)]
mod sheets;
#[cfg(test)]
mod symbols;
