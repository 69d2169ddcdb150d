//! A text's query in a sheet of its own.

use alphabet::Alphabet;
use matcher::list;
use query::Node;
use refusal::Refused;
use shape::Stretch;
use steps::Steps;
use text::{BoundShape, bind, read, write};
use tidy::tidy;

/// A query that is bound by the alphabet of the case line. Each of its calls answers with the refusal of the stage that refuses.
#[derive(Drop)]
pub struct Bound {
    alphabet: Alphabet,
    sheet: [Node; 64],
    shape: BoundShape,
}

impl Bound {
    /// The query of a text.
    pub fn new(text: &[u8]) -> Result<Bound, Refused> {
        let alphabet = Alphabet::new();
        let mut sheet = [Node::blank(); 64];
        let read = read(text, &mut sheet)?;
        let shape = bind(read, &mut sheet, text, &alphabet)?;
        Ok(Bound {
            alphabet,
            sheet,
            shape,
        })
    }

    pub fn symbols(&self) -> u8 {
        self.alphabet.symbols()
    }

    /// Writes the stretches that it fits, and tells how many they are.
    pub fn list(&self, steps: &Steps, out: &mut [Stretch]) -> Result<usize, Refused> {
        Ok(list(&self.shape, &self.sheet, self.symbols(), steps, out)?)
    }

    /// Tidies it, and writes it as a text of so many bytes.
    pub fn tidied(&mut self, out: &mut [u8]) -> Result<usize, Refused> {
        tidy(&mut self.shape, &mut self.sheet)?;
        Ok(write(&self.shape, &self.sheet, &self.alphabet, out)?)
    }
}
