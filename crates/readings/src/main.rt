//! Reads many texts, one a line in hexadecimal, and prints for each what reading gives.

#![tactic(auto)]

ghost use Rattle.std.specs.Prelude.{◌<◌, IfSome};

use query::Node;
use refusal::Refused;
use std::fmt;
use std::io::{BufRead, BufReader};
use text::read;

// A record as it is printed.
#[derive(Clone, Copy)]
struct Printed<'a>(&'a Node);

impl<'a> fmt::Display for Printed<'a> {
    fn fmt<W: fmt::Write>(&self, f: &mut fmt::Formatter<W>) -> fmt::Result {
        let x = *self.0;
        write!(
            f,
            "{},{},{},{},{}",
            x.kind.number(),
            x.number,
            x.parts,
            x.place,
            x.length
        )
    }
}

// The value of a hexadecimal digit.
fn digit(b: u8) -> Option<u8>
    ensures { IfSome result (λ d. d < 16) }
{
    match b {
        b'0'..=b'9' => Some(b - b'0'),
        b'a'..=b'f' => Some(b - b'a' + 10),
        _ => None,
    }
}

// The bytes that a line spells, as far as it spells any.
fn unspelled(rt: &HostRuntime, line: &[u8]) -> anyhow::Result<Vec<u8>> {
    let mut bytes = Vec::new(rt.alloc());
    for pair in line.chunks_exact(2) {
        if let [high, low] = pair {
            if let (Some(high), Some(low)) = (digit(*high), digit(*low)) {
                bytes.push(high * 16 + low)?;
            }
        }
    }
    Ok(bytes)
}

fn print_records(rt: &HostRuntime, records: &[Node]) -> anyhow::Result<()> {
    print!(rt; "read")?;
    for node in records {
        print!(rt; " {}", Printed(node))?;
    }
    println!(rt)?;
    Ok(())
}

fn answer(rt: &HostRuntime, text: &[u8]) -> anyhow::Result<()> {
    let mut sheet = [Node::blank(); 64];
    match read(text, &mut sheet) {
        Ok(shape) => print_records(rt, &sheet[0..shape.count().min(64)]),
        Err(fault) => Ok(println!(rt; "{}", Refused::from(fault))?),
    }
}

fn main(rt: HostRuntime) -> anyhow::Result<()> {
    for line in BufReader::new(rt.alloc(), rt.stdin())?.lines(rt.alloc()) {
        let text = unspelled(&rt, line?.as_bytes())?;
        answer(&rt, text.as_slice())?;
    }
    Ok(())
}
