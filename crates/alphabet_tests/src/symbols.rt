//! The alphabet of the case line, and the words of its steps.

use alphabet::Alphabet;
use std::test::Fail;
use value::Price;

#[test]
fn each_name_is_found_at_its_symbol(rt: HostRuntime) {
    let alphabet = Alphabet::new();
    let names: [&[u8]; 8] = [
        b"up",
        b"Up",
        b"down",
        b"Down",
        b"appears",
        b"disappears",
        b"stable",
        b"zero",
    ];
    assert_eq!(rt; alphabet.symbols(), 8);
    for (j, name) in names.iter().enumerate() {
        assert_eq!(rt; alphabet.find(*name), Some(j as u8));
        assert_eq!(rt; alphabet.name(j as u8), Some(*name));
    }
}

#[test]
fn other_names_and_symbols_are_not_there(rt: HostRuntime) {
    let alphabet = Alphabet::new();
    let others: [&[u8]; 5] = [b"", b"u", b"UP", b"up ", b"disappearsx"];
    for name in others {
        assert_eq!(rt; alphabet.find(name), None);
    }
    for symbol in 8..=255u8 {
        assert!(rt; alphabet.name(symbol).is_none());
    }
}

#[test]
fn the_case_line_has_these_words(rt: HostRuntime) -> Result<(), Fail> {
    let alphabet = Alphabet::new();
    // two values, and the word of the step between them
    let rows = [
        (0, 0, 0b1100_0000),
        (0, 2, 0b0101_0000),
        (2, 17, 0b0000_0001),
        (17, 35, 0b0000_0001),
        (35, 50, 0b0000_0001),
        (50, 45, 0b0000_0100),
        (45, 43, 0b0100_0000),
        (43, 15, 0b0000_1000),
        (15, 3, 0b0000_0100),
        (3, 0, 0b0110_0000),
        // at and beside the ends of bounds
        (100, 104, 0b0100_0000),
        (100, 105, 0b0000_0001),
        (100, 119, 0b0000_0001),
        (100, 120, 0b0000_0010),
        (100, 200, 0b0000_0010),
        (100, 201, 0),
        (100, 81, 0b0000_1100),
        (100, 80, 0b0000_1000),
        (100, 0, 0b0010_1000),
        (101, 0, 0),
        (0, 100, 0b0001_0010),
        (0, 101, 0),
        (0, -1, 0b0100_0000),
        (-1, 0, 0b0100_0000),
    ];
    for (first, last, word) in rows {
        let first = Price::new(first)?;
        let last = Price::new(last)?;
        assert_eq!(rt; alphabet.word(&first, &last), word);
    }
    Ok(())
}
