// Names at the edges of the rules.
use crate::judge::judge_name;
use crate::kinds::LastNumbers;

// The answer on the 56th day of the year, after payment file `payments` and no file of returns.
fn answer(name: &[u8], payments: u16) -> u8 {
    let last = LastNumbers {
        payments,
        returns: 0,
    };
    judge_name(name, 56, last)
        .err()
        .map_or(0, |denial| denial.number())
}

#[test]
fn names_are_judged_in_order(rt: HostRuntime) {
    assert_eq!(rt; answer(b"PL0560001.ent", 0), 0);
    assert_eq!(rt; answer(b"PL0560002.p7m", 1), 0);
    assert_eq!(rt;
        answer(b"RL0560001.ent", 1),
        0,
        "returns count by themselves"
    );
    assert_eq!(rt; answer(b"PL0560001.en", 0), 4);
    assert_eq!(rt; answer(b"XL0570009.txt", 0), 5);
    assert_eq!(rt; answer(b"PL0570009.txt", 0), 6);
    assert_eq!(rt; answer(b"PL 560009.txt", 0), 6);
    assert_eq!(rt; answer(b"PL0560003.txt", 1), 7);
    assert_eq!(rt; answer(b"PL0560000.ent", 1), 7);
    assert_eq!(rt; answer(b"PL056000A.ent", 1), 7);
    assert_eq!(rt; answer(b"PL0560001.txt", 1), 8);
    assert_eq!(rt; answer(b"PL0560002.txt", 1), 9);
    assert_eq!(rt; answer(b"PL0569999.ent", u16::MAX), 8);
}
