//! Sheets that are loaded, and sheets with one fault, at each place where there can be one.

use alphabet::{Alphabet, SheetFault, is_operator};
use refusal::Refusal;

// Three symbols, names four wide: up, Down and even.
const SHEET: &[u8; 68] = b"\x03\x04\
    up  Downeven\
    \0\0\0\0\0\0\0\x05\0\0\0\0\0\0\0\x13\0\0\
    \xff\xff\xff\xff\xff\xff\xff\x9c\xff\xff\xff\xff\xff\xff\xff\xed\x01\x02\
    \0\0\0\0\0\0\0\0\0\0\0\0\0\0\0\0\x02\x01";

fn load(sheet: &[u8]) -> Result<(), SheetFault> {
    let mut alphabet = Alphabet::new();
    alphabet.load(sheet)
}

// What loading the sheet answers with another byte at this place.
fn load_with(at: usize, byte: u8) -> Result<(), SheetFault> {
    let mut sheet = *SHEET;
    if at < 68 {
        sheet[at] = byte;
    }
    load(&sheet)
}

#[test]
fn a_sheet_is_loaded(rt: HostRuntime) {
    let mut alphabet = Alphabet::new();
    assert_eq!(rt; alphabet.load(SHEET), Ok(()));
    assert_eq!(rt; alphabet.symbols(), 3);
    assert_eq!(rt; alphabet.find(b"up"), Some(0));
    assert_eq!(rt; alphabet.find(b"Down"), Some(1));
    assert_eq!(rt; alphabet.find(b"even"), Some(2));
    assert_eq!(rt; alphabet.find(b"up  "), None);
    assert_eq!(rt; alphabet.find(b"stable"), None);
}

#[test]
fn a_refused_sheet_changes_nothing(rt: HostRuntime) {
    let mut alphabet = Alphabet::new();
    let mut sheet = *SHEET;
    // the last row asks for what there is not
    sheet[67] = 3;
    assert_eq!(rt;
        alphabet.load(&sheet),
        Err(SheetFault::BadRow { symbol: 2 })
    );
    assert_eq!(rt; alphabet.symbols(), 8);
    assert_eq!(rt; alphabet.find(b"even"), None);
    assert_eq!(rt; alphabet.find(b"stable"), Some(6));
}

#[test]
fn any_other_length_is_refused(rt: HostRuntime) {
    let sheet = *SHEET;
    for length in 0..68 {
        assert_eq!(rt;
            load(&sheet[0..length]),
            Err(SheetFault::BadLayout),
            "{}",
            length
        );
    }
    let mut longer = [0; 69];
    longer[0..68].copy_from_slice(SHEET);
    assert_eq!(rt; load(&longer), Err(SheetFault::BadLayout));
}

#[test]
fn the_front_is_judged_first(rt: HostRuntime) {
    let rows = [
        (0, 0),
        (0, 2),
        (0, 4),
        (0, 33),
        (0, 255),
        (1, 0),
        (1, 3),
        (1, 5),
        (1, 17),
    ];
    for (at, byte) in rows {
        assert_eq!(rt; load_with(at, byte), Err(SheetFault::BadLayout), "{}", byte);
    }
}

#[test]
fn a_wrong_byte_is_its_symbols_fault(rt: HostRuntime) {
    for symbol in 0..3u8 {
        let name = 2 + 4 * symbol as usize;
        let row = 14 + 18 * symbol as usize;
        // a name's first and last byte
        for (at, byte) in [(name, b' '), (name, b'1'), (name + 3, b'#'), (name + 3, 0)] {
            assert_eq!(rt;
                load_with(at, byte),
                Err(SheetFault::BadName { symbol }),
                "{}",
                at
            );
        }
        // a rank too high, too low or behind the other, and what there is not to ask
        let rows = [
            (row, 127),
            (row, 128),
            (row + 8, 127),
            (row + 8, 128),
            (row + 16, 3),
            (row + 17, 255),
        ];
        for (at, byte) in rows {
            assert_eq!(rt;
                load_with(at, byte),
                Err(SheetFault::BadRow { symbol }),
                "{}",
                at
            );
        }
    }
}

#[test]
fn faults_come_symbol_by_symbol(rt: HostRuntime) {
    // the row of symbol 0 and the name of symbol 1
    let mut sheet = *SHEET;
    sheet[30] = 3;
    sheet[6] = b' ';
    assert_eq!(rt; load(&sheet), Err(SheetFault::BadRow { symbol: 0 }));
    // and now the name of symbol 0 too
    sheet[2] = b' ';
    assert_eq!(rt; load(&sheet), Err(SheetFault::BadName { symbol: 0 }));
    // a length that is wrong goes before all
    assert_eq!(rt; load(&sheet[0..67]), Err(SheetFault::BadLayout));
}

fn padded(word: &[u8]) -> [u8; 16] {
    let mut name = [b' '; 16];
    let length = word.len().min(16);
    name[0..length].copy_from_slice(&word[0..length]);
    name
}

// What loading a sheet of one symbol with this name answers.
fn load_named(word: &[u8]) -> Result<(), SheetFault> {
    let mut sheet = [0; 36];
    sheet[0] = 1;
    sheet[1] = 16;
    sheet[2..18].copy_from_slice(&padded(word));
    load(&sheet)
}

#[test]
fn operator_words_name_nothing(rt: HostRuntime) {
    let words: [&[u8]; 12] = [
        b"any",
        b"concat",
        b"exact",
        b"atleast",
        b"atmost",
        b"in",
        b"precisely",
        b"noless",
        b"nomore",
        b"and",
        b"or",
        b"inorder",
    ];
    for word in words {
        assert!(rt; is_operator(word));
        assert_eq!(rt; load_named(word), Err(SheetFault::BadName { symbol: 0 }));
    }
    let others: [&[u8]; 6] = [b"Any", b"an", b"anyx", b"shape", b"i", b"sixteenlettersab"];
    for word in others {
        assert!(rt; !is_operator(word));
        assert_eq!(rt; load_named(word), Ok(()));
    }
    let malformed: [&[u8]; 4] = [b"", b"a b", b" a", b"a\tb"];
    for word in malformed {
        assert_eq!(rt; load_named(word), Err(SheetFault::BadName { symbol: 0 }));
    }
}

// What loading a sheet of one symbol with these bounds answers.
fn load_bounded(low: i64, high: i64) -> Result<(), SheetFault> {
    let mut sheet = [0; 21];
    sheet[0] = 1;
    sheet[1] = 1;
    sheet[2] = b'x';
    sheet[3..11].copy_from_slice(&low.to_be_bytes());
    sheet[11..19].copy_from_slice(&high.to_be_bytes());
    load(&sheet)
}

#[test]
fn bounds_reach_as_far_as_they_may(rt: HostRuntime) {
    let most = 1_000_000_000_000;
    let rows = [
        (-most, most, true),
        (most, most, true),
        (-most, -most, true),
        (0, 0, true),
        (-1, 1, true),
        (1, 0, false),
        (0, -1, false),
        (most, most + 1, false),
        (-most - 1, -most, false),
        (-most - 1, most + 1, false),
        (i64::MIN, i64::MAX, false),
        (i64::MAX, i64::MAX, false),
        (i64::MIN, i64::MIN, false),
    ];
    for (low, high, right) in rows {
        let fault = Err(SheetFault::BadRow { symbol: 0 });
        let answer = if right { Ok(()) } else { fault };
        assert_eq!(rt; load_bounded(low, high), answer, "{}", low);
    }
}

// The largest sheet: symbol j is called by sixteen letters of which the first and the last tell j. Its bounds are all 0.
fn largest() -> [u8; 1090] {
    let mut sheet = [0; 1090];
    sheet[0] = 32;
    sheet[1] = 16;
    sheet[2..514].fill(b'm');
    for j in 0..32u8 {
        let at = 2 + 16 * j as usize;
        sheet[at] = b'A' + j / 8;
        sheet[at + 15] = b'a' + j % 8;
    }
    sheet
}

#[test]
fn the_largest_sheet_is_loaded(rt: HostRuntime) {
    let mut alphabet = Alphabet::new();
    assert_eq!(rt; alphabet.load(&largest()), Ok(()));
    assert_eq!(rt; alphabet.symbols(), 32);
    assert_eq!(rt; alphabet.find(b"Ammmmmmmmmmmmmma"), Some(0));
    assert_eq!(rt; alphabet.find(b"Dmmmmmmmmmmmmmmh"), Some(31));
    assert_eq!(rt; alphabet.find(b"Dmmmmmmmmmmmmmmi"), None);
}

#[test]
fn a_name_that_comes_again_is_refused(rt: HostRuntime) {
    for j in 1..32u8 {
        let mut sheet = largest();
        // the name of symbol 0 once more
        let at = 2 + 16 * j as usize;
        sheet[at] = b'A';
        sheet[at + 15] = b'a';
        assert_eq!(rt;
            load(&sheet),
            Err(SheetFault::BadName { symbol: j }),
            "{}",
            j
        );
    }
}

#[test]
fn each_fault_has_its_number(rt: HostRuntime) {
    let rows = [
        (SheetFault::BadLayout, 7, 0),
        (SheetFault::BadName { symbol: 31 }, 8, 31),
        (SheetFault::BadRow { symbol: 5 }, 9, 5),
    ];
    for (fault, number, returned) in rows {
        assert_eq!(rt; fault.number(), number);
        assert_eq!(rt; fault.returned(), returned);
    }
}
