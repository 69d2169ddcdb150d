//! Reading, binding and writing on examples.

use alphabet::Alphabet;
use query::{Kind, Node};
use refusal::Refusal;
use std::test::Fail;
use text::{BoundShape, ReadFault, ReadShape, bind, read, write};

// A text, the number of its refusal or 0, and what is returned or how many records it has.
const CASES: [(&[u8], u8, usize); 36] = [
    (b"", 3, 0),
    (b"  ", 3, 2),
    (b"up", 0, 1),
    (b" up\t\r\n", 0, 1),
    (b"(concat)", 3, 7),
    (b"(in 0 (precisely 1 up))", 4, 4),
    (b"up#", 2, 2),
    (b"#", 2, 0),
    (b"(up)", 3, 1),
    (b"up up", 3, 3),
    (b"exact", 3, 0),
    (b"(exact 00 up)", 4, 7),
    (b"(exact 255 up)", 0, 2),
    (b"(exact 256 up)", 4, 7),
    (b"(exact 0 up)", 0, 2),
    (b"(exact 99999999999999999999 up)", 4, 7),
    (b"(exact up 2)", 3, 7),
    (b"(exact 2 up", 3, 11),
    (b"(any)", 0, 1),
    (b"((up))", 3, 1),
    (b"(in 5 up)", 3, 6),
    (b"(in 5 (inorder up (any)))", 0, 4),
    (b"(in 5 (and (inorder up)))", 3, 12),
    (b"(noless 2 up)", 3, 1),
    (b"(exact2up)", 0, 2),
    (b"(exact 2 up) up#", 3, 13),
    (b"(exact 00 #", 4, 7),
    (b"(concat #", 2, 8),
    (
        b"(any (any (any (any (any (any (any (any (any (any (any (any (any (any (any up)))))))))))))))",
        0,
        16,
    ),
    (
        b"(any (any (any (any (any (any (any (any (any (any (any (any (any (any (any (any up))))))))))))))))",
        5,
        80,
    ),
    (
        b"(any (any (any (any (any (any (any (any (any (any (any (any (any (any (any (any))))))))))))))))",
        0,
        16,
    ),
    (
        b"(any (any (any (any (any (any (any (any (any (any (any (any (any (any (any (any (any)))))))))))))))))",
        5,
        81,
    ),
    (
        b"(any (any (any (any (any (any (any (any (any (any (any (any (any (any (any (any ()",
        3,
        81,
    ),
    (
        b"(any a a a a a a a a a a a a a a a a a a a a a a a a a a a a a a a a a a a a a a a a a a a a a a a a a a a a a a a a a a a a a a a)",
        0,
        64,
    ),
    (
        b"(any a a a a a a a a a a a a a a a a a a a a a a a a a a a a a a a a a a a a a a a a a a a a a a a a a a a a a a a a a a a a a a a a)",
        5,
        131,
    ),
    (
        b"(any a a a a a a a a a a a a a a a a a a a a a a a a a a a a a a a a a a a a a a a a a a a a a a a a a a a a a a a a a a a a a a a a #",
        5,
        131,
    ),
];

// The number of the refusal or 0, and what is returned or how many records there are.
fn outcome(answer: Result<ReadShape, ReadFault>) -> (u8, usize) {
    match answer {
        Ok(shape) => (0, shape.count()),
        Err(fault) => (fault.number(), fault.returned()),
    }
}

fn tried(text: &[u8]) -> (u8, usize) {
    let mut sheet = [Node::blank(); 64];
    outcome(read(text, &mut sheet))
}

#[test]
fn each_text_gives_its_answer(rt: HostRuntime) {
    for (text, number, value) in CASES {
        assert!(rt; tried(text) == (number, value));
    }
}

#[test]
fn limits_of_the_text_and_the_sheet(rt: HostRuntime) {
    let mut text = [b' '; 4097];
    text[0] = b'u';
    assert!(rt; tried(&text[0..4096]) == (0, 1));
    assert!(rt; tried(&text[0..4097]) == (1, 4096));
    let mut short = [Node::blank(); 63];
    assert!(rt; outcome(read(&text[0..4097], &mut short)) == (6, 64));
}

#[test]
fn records_and_symbols_of_a_window(rt: HostRuntime) -> Result<(), Fail> {
    let text = b"(in 5 (noless 2 down))";
    let mut sheet = [Node::blank(); 64];
    let Ok(read) = read(text, &mut sheet) else {
        return Err(Fail::new("not read"));
    };
    assert!(rt; sheet[0].kind.number() == 6 && sheet[0].number == 5 && sheet[0].parts == 1);
    assert!(rt; sheet[1].kind.number() == 8 && sheet[1].place == 7 && sheet[1].length == 6);
    assert!(rt; sheet[2].number == 255 && sheet[2].place == 16 && sheet[2].length == 4);
    let Ok(bound) = bind(read, &mut sheet, text, &Alphabet::new()) else {
        return Err(Fail::new("not bound"));
    };
    assert!(rt; sheet[2].number == 2 && sheet[1].number == 2 && sheet[3].number == 0);
    let mut out = [b'.'; 4096];
    let Ok(length) = write(&bound, &sheet, &Alphabet::new(), &mut out) else {
        return Err(Fail::new("not written"));
    };
    assert!(rt; length == 22);
    assert!(rt; &out[0..22] == text.as_slice() && out[22] == b'.');
    Ok(())
}

#[test]
fn an_unknown_name_gives_the_shape_back(rt: HostRuntime) -> Result<(), Fail> {
    let text = b"(exact 2 sideways)";
    let mut sheet = [Node::blank(); 64];
    let Ok(read) = read(text, &mut sheet) else {
        return Err(Fail::new("not read"));
    };
    let Err(unbound) = bind(read, &mut sheet, text, &Alphabet::new()) else {
        return Err(Fail::new("bound"));
    };
    assert!(rt; unbound.fault.number() == 10 && unbound.fault.returned() == 9);
    assert!(rt; unbound.fault.length() == 8 && unbound.read.count() == 2 && sheet[1].number == 255);
    Ok(())
}

// The number of the refusal of a binding, and what is returned with it; 0 where the text is bound.
fn bound(text: &[u8], sheet: &mut [Node], changed: Node) -> (u8, usize) {
    let Ok(read) = read(text, sheet) else {
        return (1, 0);
    };
    sheet[1] = changed;
    match bind(read, sheet, text, &Alphabet::new()) {
        Ok(_) => (0, 0),
        Err(unbound) => (unbound.fault.number(), unbound.fault.returned()),
    }
}

#[test]
fn changed_records_are_not_bound(rt: HostRuntime) {
    let text = b"(exact 2 up)";
    let up = Node {
        kind: Kind::Symbol,
        number: 255,
        parts: 0,
        place: 9,
        length: 2,
    };
    let mut sheet = [Node::blank(); 64];
    assert!(rt; bound(text, &mut sheet, up) == (0, 0) && sheet[1].number == 0);
    let numbered = Node { number: 3, ..up };
    assert!(rt; bound(text, &mut sheet, numbered) == (14, 0) && sheet[1].number == 3);
    let outside = Node { length: 4, ..up };
    assert!(rt; bound(text, &mut sheet, outside) == (14, 0) && sheet[1].number == 255);
    let inside = Node { length: 3, ..up };
    assert!(rt; bound(text, &mut sheet, inside) == (10, 9) && sheet[1].number == 255);
}

// What writing into a buffer of so many dots gives: the refusal's number or 0, what is returned with it or the length, and the
// first byte and the fifteenth.
fn written(bound: &BoundShape, sheet: &[Node], bytes: usize) -> (u8, usize, u8, u8) {
    let mut out = [b'.'; 4096];
    let (number, value) = match write(
        bound,
        sheet,
        &Alphabet::new(),
        &mut out[0..bytes.min(4096)],
    ) {
        Ok(length) => (0, length),
        Err(fault) => (fault.number(), fault.returned()),
    };
    (number, value, out[0], out[14])
}

#[test]
fn limits_of_writing(rt: HostRuntime) -> Result<(), Fail> {
    let text = b"(exact 2 up)";
    let mut sheet = [Node::blank(); 64];
    let Ok(read) = read(text, &mut sheet) else {
        return Err(Fail::new("not read"));
    };
    let Ok(bound) = bind(read, &mut sheet, text, &Alphabet::new()) else {
        return Err(Fail::new("not bound"));
    };
    assert!(rt; written(&bound, &sheet[0..63], 4095) == (6, 64, b'.', b'.'));
    assert!(rt; written(&bound, &sheet, 4095) == (6, 4096, b'.', b'.'));
    let [whole, up, ..] = sheet;
    sheet = [whole; 64];
    sheet[1] = Node { number: 8, ..up };
    assert!(rt; written(&bound, &sheet, 4096) == (14, 0, b'.', b'.'));
    sheet[1] = Node { number: 7, ..up };
    assert!(rt; written(&bound, &sheet, 4096) == (0, 14, b'(', b'.'));
    Ok(())
}
