//! The ends of both ranges, and ranks at them and where a difference is rounded.

use super::*;
use std::test::Fail;

#[test]
fn a_price_is_made_within_its_range(rt: HostRuntime) {
    let rows = [
        (i64::MIN, false),
        (-1_000_000_001, false),
        (-1_000_000_000, true),
        (0, true),
        (1_000_000_000, true),
        (1_000_000_001, false),
        (i64::MAX, false),
    ];
    for (hundredths, made) in rows {
        match Price::new(hundredths) {
            Ok(price) => assert!(rt;
                made && i64::from(price.hundredths()) == hundredths,
                "{}",
                hundredths
            ),
            Err(fault) => assert!(rt; !made && fault == ValueFault::OutOfRange, "{}", hundredths),
        }
    }
}

#[test]
fn a_price_ranks_by_the_difference(rt: HostRuntime) -> Result<(), Fail> {
    let rows = [
        (0, 0, 0),
        (2, 17, 15),
        (43, 15, -28),
        (-1_000_000_000, 1_000_000_000, 2_000_000_000),
        (1_000_000_000, -1_000_000_000, -2_000_000_000),
    ];
    for (earlier, later, rank) in rows {
        let earlier = Price::new(earlier)?;
        let later = Price::new(later)?;
        assert_eq!(rt; earlier.rank_to(&later), rank);
        assert_eq!(rt; later.is_zero(), later.hundredths() == 0);
    }
    Ok(())
}

#[test]
fn a_reading_is_made_within_its_range(rt: HostRuntime) {
    let rows = [
        (f32::NEG_INFINITY, false),
        (-1e-45, false),
        (-0.0, true),
        (0.0, true),
        (1e-45, true),
        (99.99999, true),
        (100.0, true),
        (100.00001, false),
        (f32::INFINITY, false),
        (f32::NAN, false),
    ];
    for (reading, made) in rows {
        match Moisture::new(reading) {
            Ok(moisture) => assert!(rt; made && moisture.reading() == reading, "{}", reading),
            Err(fault) => assert!(rt; !made && fault == ValueFault::OutOfRange, "{}", reading),
        }
    }
}

#[test]
fn a_reading_ranks_by_the_bits_of_the_difference(rt: HostRuntime) -> Result<(), Fail> {
    let rows = [
        // both zeros
        (0.0, 0.0, 0),
        (0.0, -0.0, 0),
        (-0.0, 0.0, 0),
        // the smallest difference, of two normal numbers
        (1.1754944e-38, 1.1754945e-38, 1),
        (1e-45, 0.0, -1),
        // rounded
        (0.1, 0.3, 0x3e4c_ccce),
        (0.1, 100.0, 0x42c7_cccd),
        (100.0, 1e-10, -0x42c8_0000),
        // the whole range
        (-0.0, 100.0, 0x42c8_0000),
        (100.0, 0.0, -0x42c8_0000),
    ];
    for (earlier, later, rank) in rows {
        let earlier = Moisture::new(earlier)?;
        let later = Moisture::new(later)?;
        assert_eq!(rt; earlier.rank_to(&later), rank);
    }
    assert!(rt;
        Moisture::new(-0.0)?.is_zero()
            && Moisture::new(0.0)?.is_zero()
            && !Moisture::new(1e-45)?.is_zero()
    );
    Ok(())
}
