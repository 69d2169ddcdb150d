//! A text that is read, bound and tidied, and compared with the text that is then written.

use alphabet::Alphabet;
use query::{Kind, Node};
use std::process::Abort;
use text::{BoundShape, bind, read, write};
use tidy::tidy;

/// A record that belongs to no query.
pub const STRAY: Node = Node {
    kind: Kind::Any,
    number: 7,
    parts: 7,
    place: 7,
    length: 7,
};

/// Reads a text and binds it by the alphabet of the case line. Stray records are put behind the query.
pub fn bound(text: &[u8], sheet: &mut [Node]) -> Option<BoundShape> {
    let Ok(shape) = read(text, sheet) else {
        return None;
    };
    let Ok(shape) = bind(shape, sheet, text, &Alphabet::new()) else {
        return None;
    };
    for n in sheet.iter_mut().skip(shape.count()) {
        *n = STRAY;
    }
    Some(shape)
}

/// Whether two sheets hold the same records, their words too.
pub fn same_sheet(one: &[Node], other: &[Node]) -> bool {
    one == other
}

// Whether all records but the first so many are blank.
fn blank_behind(sheet: &[Node], count: usize) -> bool {
    sheet.iter().skip(count).all(|n| *n == Node::blank())
}

// Whether the query is written as this text.
fn is_written(shape: &BoundShape, sheet: &[Node], text: &[u8]) -> bool {
    let mut out = [0; 4096];
    match write(shape, sheet, &Alphabet::new(), &mut out) {
        Ok(length) => &out[0..length.min(4096)] == text,
        Err(_) => false,
    }
}

// Whether the first text's query, tidied, is the second's, with nothing but blank records behind it.
fn becomes(text: &[u8], tidied: &[u8]) -> bool {
    let mut sheet = [Node::blank(); 70];
    let Some(mut shape) = bound(text, &mut sheet) else {
        return false;
    };
    let Ok(count) = tidy(&mut shape, &mut sheet) else {
        return false;
    };
    count == shape.count() && blank_behind(&sheet, count) && is_written(&shape, &sheet, tidied)
}

/// Each text's query, tidied, is that of the text beside it.
pub fn each_becomes(rt: &impl Abort, table: &[(&[u8], &[u8])]) {
    for (text, tidied) in table {
        assert!(rt; becomes(text, tidied));
    }
}

/// Each text's query, tidied, is this one.
pub fn all_become(rt: &impl Abort, tidied: &[u8], table: &[&[u8]]) {
    for text in table {
        assert!(rt; becomes(text, tidied));
    }
}

/// Each text's query is tidy already.
pub fn all_stay(rt: &impl Abort, table: &[&[u8]]) {
    for text in table {
        assert!(rt; becomes(text, text));
    }
}
