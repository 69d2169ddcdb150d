//! Matching and tidying for C and Rust callers: texts and words as bytes, answers as numbers.

#![tactic(auto)]

use alphabet::Alphabet;
use matcher::{fit, list};
use query::Node;
use refusal::Refusal;
use shape::Stretch;
use steps::Steps;
use text::{BoundShape, bind, read, write};
use tidy::tidy;

/// An answer: a refusal's number and what is returned with it, or 0 and the value asked for.
#[repr(C)]
#[derive(Clone, Copy)]
pub struct Answer {
    pub refused: u32,
    pub value: u32,
}

impl Answer {
    fn new(refused: u8, value: usize) -> Answer {
        Answer {
            refused: u32::from(refused),
            value: value.min(65535) as u32,
        }
    }
}

impl<F: Refusal + Drop> From<F> for Answer {
    fn from(fault: F) -> Answer {
        Answer::new(fault.number(), fault.returned())
    }
}

// The answer for C.
fn told(answer: Result<usize, Answer>) -> Answer {
    match answer {
        Ok(value) => Answer::new(0, value),
        Err(refused) => refused,
    }
}

// Reads the text and binds it by the case line's alphabet.
fn bound(text: &[u8], alphabet: &Alphabet, sheet: &mut [Node]) -> Result<BoundShape, Answer> {
    let shape = read(text, sheet)?;
    Ok(bind(shape, sheet, text, alphabet)?)
}

// The steps with these words, four bytes each, the lowest first; a 256th is refused as a post of it would be.
fn given_steps(words: &[u8]) -> Result<Steps, Answer> {
    let mut steps = Steps::new();
    for word in words.chunks_exact(4) {
        if let [a, b, c, d] = word {
            steps.push(u32::from_le_bytes([*a, *b, *c, *d]))?;
        }
    }
    Ok(steps)
}

// Writes the stretches two bytes each, where there is room for all.
fn copied(found: &[Stretch], out: &mut [u8]) -> Result<usize, Answer> {
    if out.len() / 2 < found.len() {
        return Err(Answer::new(15, found.len()));
    }
    for (x, place) in found.iter().zip(out.chunks_exact_mut(2)) {
        place.copy_from_slice(&[x.start, x.end]);
    }
    Ok(found.len())
}

fn listed(text: &[u8], words: &[u8], out: &mut [u8]) -> Result<usize, Answer> {
    let alphabet = Alphabet::new();
    let mut sheet = [Node::blank(); 64];
    let shape = bound(text, &alphabet, &mut sheet)?;
    let steps = given_steps(words)?;
    let mut found = [Stretch { start: 0, end: 0 }; 32640];
    let count = list(&shape, &sheet, alphabet.symbols(), &steps, &mut found)?;
    copied(&found[0..count.min(32640)], out)
}

fn fitted(text: &[u8], words: &[u8], a: u32, b: u32) -> Result<usize, Answer> {
    let alphabet = Alphabet::new();
    let mut sheet = [Node::blank(); 64];
    let shape = bound(text, &alphabet, &mut sheet)?;
    let steps = given_steps(words)?;
    let fits = fit(
        &shape,
        &sheet,
        alphabet.symbols(),
        &steps,
        a as usize,
        b as usize,
    )?;
    Ok(usize::from(fits))
}

fn tidied(text: &[u8], out: &mut [u8]) -> Result<usize, Answer> {
    let alphabet = Alphabet::new();
    let mut sheet = [Node::blank(); 64];
    let mut shape = bound(text, &alphabet, &mut sheet)?;
    tidy(&mut shape, &mut sheet)?;
    Ok(write(&shape, &sheet, &alphabet, out)?)
}

fn counted(text: &[u8]) -> Result<usize, Answer> {
    let mut sheet = [Node::blank(); 64];
    Ok(bound(text, &Alphabet::new(), &mut sheet)?.count())
}

/// Reads a text and binds it by the case line's alphabet: how many records the query has.
#[unsafe(no_mangle)]
pub extern "C" fn maudrike_bind(text: &[u8]) -> Answer {
    told(counted(text))
}

/// Lists a text on the line with these words: how many stretches there are, which `out` then holds, two bytes each.
#[unsafe(no_mangle)]
pub extern "C" fn maudrike_list(text: &[u8], words: &[u8], out: &mut [u8]) -> Answer {
    told(listed(text, words, out))
}

/// Whether a text fits (a, b) on the line with these words: 1 or 0.
#[unsafe(no_mangle)]
pub extern "C" fn maudrike_fit(text: &[u8], words: &[u8], a: u32, b: u32) -> Answer {
    told(fitted(text, words, a, b))
}

/// Tidies the query of a text: how many bytes the tidied text has, which `out` then holds.
#[unsafe(no_mangle)]
pub extern "C" fn maudrike_tidy(text: &[u8], out: &mut [u8]) -> Answer {
    told(tidied(text, out))
}
