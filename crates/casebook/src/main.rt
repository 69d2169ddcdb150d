//! Lists a text on the case line.

#![tactic(auto)]

mod bound;

use book::{RunBook, WordSheet};
use bound::Bound;
use refusal::Refused;
use shape::Stretch;
use std::env;
use std::io::Read;
use steps::Steps;

// What the program is asked for.
#[derive(Drop)]
struct Asked {
    tidy: bool,
    text: Vec<u8>,
}

fn all_input(rt: &HostRuntime) -> anyhow::Result<Vec<u8>> {
    let mut text = Vec::new(rt.alloc());
    rt.stdin().read_to_end(&mut text)?;
    Ok(text)
}

// The text is the first argument, after a `--tidy`, or all of standard input where there is none.
fn what_is_asked(rt: &HostRuntime) -> anyhow::Result<Asked> {
    let mut args = env::args(rt)?;
    let _ = args.next();
    let mut given = args.next();
    let mut tidy = false;
    if let Some(word) = &given {
        tidy = word.as_str() == "--tidy";
    }
    if tidy {
        given = args.next();
    }
    let text = match given {
        Some(text) => text.into_bytes(),
        None => all_input(rt)?,
    };
    Ok(Asked { tidy, text })
}

// The word of a step, as far as the first symbols go.
fn word_at(book: &mut WordSheet, step: usize, symbols: u8) -> u32 {
    let mut word = 0;
    for j in 0..symbols.min(32) {
        if book.mark(j, step) {
            word |= 1 << j;
        }
    }
    word
}

// The steps of the case line, learnt from a run book.
fn case_steps(symbols: u8) -> Steps {
    let mut book = WordSheet::new();
    caseline::fill(&mut book);
    let mut steps = Steps::new();
    for t in 0..book.size() {
        let _ = steps.push(word_at(&mut book, t, symbols));
    }
    steps
}

fn print_listing(rt: &HostRuntime, bound: &Bound) -> anyhow::Result<()> {
    let mut out = [Stretch { start: 0, end: 0 }; 64];
    match bound.list(&case_steps(bound.symbols()), &mut out) {
        Ok(count) => {
            for x in out.iter().take(count) {
                println!(rt; "{x}")?;
            }
            println!(rt; "{count} shapes")?;
        }
        Err(refused) => println!(rt; "{refused}")?,
    }
    Ok(())
}

// Tidies the query, and prints the text that it is then written as.
fn print_tidied(rt: &HostRuntime, bound: &mut Bound) -> anyhow::Result<()> {
    let mut out = [0u8; 4096];
    match bound.tidied(&mut out) {
        Ok(length) => print_text(rt, &out[0..length.min(4096)]),
        Err(refused) => Ok(println!(rt; "{refused}")?),
    }
}

fn print_text(rt: &HostRuntime, text: &[u8]) -> anyhow::Result<()> {
    if let Ok(text) = std::str::from_utf8(text) {
        println!(rt; "{text}")?;
    }
    Ok(())
}

fn answer(rt: &HostRuntime, asked: &Asked) -> anyhow::Result<()> {
    let mut bound = match Bound::new(asked.text.as_slice()) {
        Ok(bound) => bound,
        Err(refused) => return Ok(println!(rt; "{refused}")?),
    };
    if asked.tidy {
        print_tidied(rt, &mut bound)?;
    }
    print_listing(rt, &bound)
}

fn main(rt: HostRuntime) -> anyhow::Result<()> {
    answer(&rt, &what_is_asked(&rt)?)
}
