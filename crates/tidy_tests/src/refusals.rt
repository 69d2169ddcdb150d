//! What is refused, and left as it was.

use crate::sheet::{STRAY, bound, same_sheet};
use query::{Kind, Node};
use refusal::Refusal;
use std::test::Fail;
use text::BoundShape;
use tidy::tidy;

// What a sheet is refused by: a number, and the value that goes with it.
const SHORT: (u8, usize) = (6, 64);

const UNBOUND: (u8, usize) = (14, 0);

// Whether the sheet is so refused, and the shape's count and every record stay as they were before.
fn refused(shape: &mut BoundShape, sheet: &mut [Node], before: &[Node], by: (u8, usize)) -> bool {
    let count = shape.count();
    let Err(fault) = tidy(shape, sheet) else {
        return false;
    };
    (fault.number(), fault.returned()) == by && shape.count() == count && same_sheet(sheet, before)
}

// Whether `(any up up)` is refused with this record in place of one of its own.
fn refused_with(i: usize, kind: Kind, number: u8, parts: u8) -> bool {
    let mut sheet = [Node::blank(); 70];
    let Some(mut shape) = bound(b"(any up up)", &mut sheet) else {
        return false;
    };
    if i < 70 {
        sheet[i] = Node {
            kind,
            number,
            parts,
            place: 1,
            length: 3,
        };
    }
    let before = sheet;
    refused(&mut shape, &mut sheet, &before, UNBOUND)
}

#[test]
fn records_that_are_no_bound_query(rt: HostRuntime) {
    let table = [
        // a 33rd symbol
        (2, Kind::Symbol, 32, 0),
        // a concat without parts
        (1, Kind::Concat, 0, 0),
        // a record left over, one too few, and a number where none goes
        (0, Kind::Any, 0, 1),
        (0, Kind::Any, 0, 3),
        (0, Kind::Any, 1, 2),
        // a count where a shape must stand
        (0, Kind::And, 0, 2),
    ];
    for (i, kind, number, parts) in table {
        assert!(rt; refused_with(i, kind, number, parts));
    }
}

#[test]
fn a_shape_without_records(rt: HostRuntime) -> Result<(), Fail> {
    let mut sheet = [Node::blank(); 70];
    let Some(mut shape) = bound(b"(any up up)", &mut sheet) else {
        return Err(Fail::new("not bound"));
    };
    shape.shorten(0);
    let before = sheet;
    assert!(rt; refused(&mut shape, &mut sheet, &before, UNBOUND));
    Ok(())
}

#[test]
fn a_sheet_of_63_records(rt: HostRuntime) -> Result<(), Fail> {
    let mut sheet = [Node::blank(); 64];
    let Some(mut shape) = bound(b"(any up up)", &mut sheet) else {
        return Err(Fail::new("not bound"));
    };
    let mut short = [STRAY; 63];
    (short[0], short[1], short[2]) = (sheet[0], sheet[1], sheet[2]);
    let before = short;
    assert!(rt; refused(&mut shape, &mut short, &before, SHORT));
    Ok(())
}

#[test]
fn a_short_sheet_before_records_that_are_no_query(rt: HostRuntime) -> Result<(), Fail> {
    let mut sheet = [Node::blank(); 64];
    let Some(mut shape) = bound(b"(any up up)", &mut sheet) else {
        return Err(Fail::new("not bound"));
    };
    let mut short = [STRAY; 63];
    let before = short;
    assert!(rt; refused(&mut shape, &mut short, &before, SHORT));
    Ok(())
}

#[test]
fn not_a_32nd_symbol(rt: HostRuntime) -> Result<(), Fail> {
    let mut sheet = [Node::blank(); 64];
    let Some(mut shape) = bound(b"(any up up)", &mut sheet) else {
        return Err(Fail::new("not bound"));
    };
    sheet[2] = Node {
        number: 31,
        ..sheet[2]
    };
    assert!(rt; matches!(tidy(&mut shape, &mut sheet), Ok(3)));
    Ok(())
}
