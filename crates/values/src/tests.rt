// The public functions on the worked examples and at their edges.
use crate::amounts::{amount_in_cents, is_amount_spelled, written};
use crate::currency::Currency;
use crate::dates::Date;
use std::test::Fail;

#[test]
fn amounts_are_read(rt: HostRuntime) {
    assert_eq!(rt; amount_in_cents(b"1,"), Some(100));
    assert_eq!(rt; amount_in_cents(b"0,5"), Some(50));
    assert_eq!(rt; amount_in_cents(b"0,00"), Some(0));
    assert_eq!(rt;
        amount_in_cents(b"12345678901234,"),
        Some(1_234_567_890_123_400)
    );
    assert_eq!(rt; amount_in_cents(b"123456789012345,"), None);
    assert_eq!(rt; amount_in_cents(b"1,2,"), None);
    assert!(rt; is_amount_spelled(b"1,2,"));
    assert!(rt; !is_amount_spelled(b""));
}

#[test]
fn amounts_are_written(rt: HostRuntime) -> Result<(), Fail> {
    assert!(rt; written(1).ok_or("a cent")?.as_slice() == b"0,01".as_slice());
    assert!(rt; written(100_000_000).ok_or("a million")?.as_slice() == b"1000000,00".as_slice());
    assert!(rt; written(0).is_none());
    assert!(rt; written(1_000_000_001).is_none());
    Ok(())
}

// The day's number in its year, or 0 where there is no such date.
fn number(year: u64, month: u64, day: u64) -> u16 {
    Date::new(year, month, day).map_or(0, |date| date.day_of_year())
}

// The date's nine digits, of the day of the year and of year, month and day.
fn digits(year: u64, month: u64, day: u64) -> ([u8; 3], [u8; 6]) {
    Date::new(year, month, day).map_or(([0; 3], [0; 6]), |date| (date.day_digits(), date.yymmdd()))
}

#[test]
fn dates_are_numbered(rt: HostRuntime) {
    assert_eq!(rt; number(2024, 2, 25), 56);
    assert_eq!(rt; number(2024, 3, 1), 61);
    assert_eq!(rt; number(2023, 3, 1), 60);
    assert_eq!(rt; number(2023, 2, 29), 0);
    assert_eq!(rt; number(2100, 1, 1), 0);
    assert_eq!(rt; digits(2024, 2, 25), (*b"056", *b"240225"));
    assert_eq!(rt; digits(2099, 12, 31), (*b"365", *b"991231"));
}

fn letters(s: &[u8]) -> [u8; 3] {
    Currency::new(s).map_or([0; 3], |currency| currency.letters())
}

#[test]
fn currencies_are_three_letters(rt: HostRuntime) {
    assert_eq!(rt; letters(b"EUR"), *b"EUR");
    assert_eq!(rt; letters(b"EU1"), [0; 3]);
    assert_eq!(rt; letters(b"EURO"), [0; 3]);
}
