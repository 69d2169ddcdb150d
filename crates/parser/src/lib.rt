//! The words of a text, taken one after another into the records of a query.

#![tactic(auto)]

ghost use Rattle.std.specs.Prelude.{◌≡◌};
ghost use Rattle.parser.specs.Parsing.{parsed, outcome, Parsed};

mod fault;
mod machine;

pub use fault::ReadFault;
pub use machine::Machine;
use words::Reader;

/// Reads the words of a text into records.
pub fn parse(text: &[u8]) -> Result<Machine, ReadFault>
    ensures outcome { outcome result ≡ parsed text.now }
    ensures parsed { Parsed result (parsed text.now) }
{
    if text.len() > 4096 {
        return Err(ReadFault::Long);
    }
    let mut reader = Reader::new(text);
    let mut machine = Machine::new();
    while let Some(word) = reader.next_word()? {
        machine.take(word)?;
    }
    machine.finish(text.len())?;
    Ok(machine)
}
