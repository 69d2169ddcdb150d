//! The words of a text, handed out one after another as parts of that text.

#![tactic(auto)]

ghost use Rattle.std.specs.Prelude.{◌≡◌, ◌+◌, ◌≤◌, length, take, drop};
ghost use Rattle.std.specs.List.{prefix_len};
ghost use Rattle.words.specs.Words.{class, same, row};
ghost use Rattle.words.specs.Ahead.{ahead, Takes, Stands, Stays};

mod reader;

pub use reader::Reader;

#[derive(Clone, Copy, PartialEq)]
enum Class {
    Blank,
    Letter,
    Digit,
    Open,
    Close,
    Other,
}

/// A word: a row of letters, a row of digits, or a parenthesis. A row is a part of the text itself.
#[derive(Clone, Copy)]
pub enum Token<'a> {
    Name(&'a [u8]),
    Number(&'a [u8]),
    Opens,
    Closes,
}

/// A word with its place in the text, in bytes from 0.
#[derive(Clone, Copy)]
pub struct Word<'a> {
    pub place: usize,
    pub token: Token<'a>,
}

/// The place of a byte that belongs to no word and is no blank.
#[derive(Clone, Copy, PartialEq, Eq, Debug)]
pub struct WordFault {
    pub place: usize,
}

fn class_of(byte: u8) -> Class
    ensures { result ≡ class byte }
{
    match byte {
        _ if byte.is_ascii_alphabetic() => Class::Letter,
        _ if byte.is_ascii_digit() => Class::Digit,
        b'(' => Class::Open,
        b')' => Class::Close,
        b' ' | b'\t' | b'\r' | b'\n' => Class::Blank,
        _ => Class::Other,
    }
}

// The classes of rows are told by their own bytes alone: a reader asks this of each byte.
fn is_of(byte: u8, row_class: Class) -> bool
    ensures { result ≡ same row_class (class byte) }
{
    match row_class {
        Class::Blank => matches!(byte, b' ' | b'\t' | b'\r' | b'\n'),
        Class::Letter => byte.is_ascii_alphabetic(),
        Class::Digit => byte.is_ascii_digit(),
        Class::Open | Class::Close | Class::Other => class_of(byte) == row_class,
    }
}

// How many bytes of one class stand in front.
fn row_length(bytes: &[u8], row_class: Class) -> usize
    ensures within { result ≤ length bytes.now }
    ensures whole { result ≡ prefix_len (λ b. same row_class (class b)) bytes.now }
{
    bytes
        .iter()
        .position(|byte| !is_of(*byte, row_class))
        .unwrap_or(bytes.len())
}

impl<'a> Reader<'a> {
    /// A reader at the start of the text.
    pub fn new(text: &'a [u8]) -> Reader<'a>
        ensures text { result.text.now ≡ text.now }
        ensures at { result.at ≡ 0 }
    {
        Reader { text, at: 0 }
    }

    // Takes so many bytes.
    fn take(&mut self, size: usize) -> &'a [u8]
        requires { self.old.at + size ≤ length self.old.text.now }
        ensures text { self.new.text.now ≡ self.old.text.now }
        ensures at { self.new.at ≡ self.old.at + size }
        ensures bytes { result.now ≡ take size (drop self.old.at self.old.text.now) }
    {
        let from = self.at;
        self.at += size;
        &self.text[from..self.at]
    }

    // Takes the longest row of bytes of one class in front.
    fn take_row(&mut self, row_class: Class) -> &'a [u8]
        ensures text { self.new.text.now ≡ self.old.text.now }
        ensures at { self.new.at ≡ self.old.at + row row_class (drop self.old.at self.old.text.now) }
        ensures bytes { result.now ≡ take (row row_class (drop self.old.at self.old.text.now)) (drop self.old.at self.old.text.now) }
    {
        let size = row_length(&self.text[self.at..], row_class);
        self.take(size)
    }

    /// The next word, or none where the text ends.
    pub fn next_word(&mut self) -> Result<Option<Word<'a>>, WordFault>
        ensures text { self.new.text.now ≡ self.old.text.now }
        ensures stands { Stands result self.old.at self.new.at }
        ensures step { Takes result (ahead self.old) (ahead self.new) }
        ensures rest { Stays result (ahead self.old) (ahead self.new) }
    {
        self.take_row(Class::Blank);
        let place = self.at;
        if place == self.text.len() {
            return Ok(None);
        }
        let token = match class_of(self.text[place]) {
            Class::Letter => Token::Name(self.take_row(Class::Letter)),
            Class::Digit => Token::Number(self.take_row(Class::Digit)),
            Class::Open => {
                self.take(1);
                Token::Opens
            }
            Class::Close => {
                self.take(1);
                Token::Closes
            }
            Class::Blank | Class::Other => return Err(WordFault { place }),
        };
        Ok(Some(Word { place, token }))
    }
}
