//! Every book at its ends, and all three side by side.

use super::*;
use book::{RunTable, WordSheet};
use std::process::Abort;

fn has_room_for_255<B: RunBook + Drop>(rt: &impl Abort, mut book: B) {
    assert!(rt; !book.drop_last() && book.size() == 0, "empty at first");
    for step in 0..255 {
        let word = if step % 2 == 0 { u32::MAX } else { 0 };
        assert!(rt; book.add(word), "{}", step);
    }
    assert!(rt; !book.add(u32::MAX) && book.size() == 255, "full");
    assert!(rt;
        book.run(31, 254) == 1 && book.run(31, 253) == 0,
        "each run is of one step"
    );
    for step in 0..255 {
        assert!(rt; book.drop_last(), "{}", step);
    }
    assert!(rt; !book.drop_last() && book.size() == 0, "empty again");
}

fn tells_runs<B: RunBook + Drop>(rt: &impl Abort, mut book: B) {
    for word in [0b01, 0b11, 0b10, 0b11, 0, 0x8000_0000] {
        assert!(rt; book.add(word));
    }
    let rows = [
        (0, 0, 2),
        (0, 1, 1),
        (0, 2, 0),
        (0, 3, 1),
        (0, 4, 0),
        (1, 0, 0),
        (1, 1, 3),
        (31, 5, 1),
        (31, 6, 0),
        (32, 5, 0),
        (255, usize::MAX, 0),
    ];
    for (symbol, step, run) in rows {
        assert!(rt;
            book.run(symbol, step) == run && book.mark(symbol, step) == (run > 0),
            "{}",
            step
        );
    }
    book.empty();
    assert!(rt; book.size() == 0 && !book.mark(0, 0), "emptied");
}

#[test]
fn each_has_room_for_255(rt: HostRuntime) {
    has_room_for_255(&rt, WordSheet::new());
    has_room_for_255(&rt, RunTable::new());
    has_room_for_255(&rt, Pile::new());
}

#[test]
fn each_tells_runs(rt: HostRuntime) {
    tells_runs(&rt, WordSheet::new());
    tells_runs(&rt, RunTable::new());
    tells_runs(&rt, Pile::new());
}

/// What the book answers after one call more, drawn from a random number.
fn goes_on<B: RunBook>(book: &mut B, random: u32) -> (bool, usize, bool, usize) {
    let symbol = (random >> 24) as u8 % 40;
    let step = (random >> 8) as usize % 260;
    let done = if random >> 30 == 0 {
        book.drop_last()
    } else {
        // neighbouring words have some symbols in common
        book.add(random & (random >> 1) | 0xff00)
    };
    (
        done,
        book.size(),
        book.mark(symbol, step),
        book.run(symbol, step),
    )
}

#[test]
fn all_answer_alike(rt: HostRuntime) {
    let mut sheet = WordSheet::new();
    let mut table = RunTable::new();
    let mut pile = Pile::new();
    let mut random = 1u32;
    for _ in 0..20_000 {
        random = random.wrapping_mul(1_664_525).wrapping_add(1_013_904_223);
        let told = goes_on(&mut sheet, random);
        assert!(rt; goes_on(&mut table, random) == told);
        assert!(rt; goes_on(&mut pile, random) == told);
    }
    assert!(rt; sheet.size() > 200, "the books are full most of the time");
}
