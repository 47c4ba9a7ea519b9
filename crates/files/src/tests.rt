// Bodies at the edges of the rules.
use crate::amounts::counted_amount;
use crate::control::Expected;
use crate::verdict::judge_body;
use frames::fixed::SOH;
use keys::Bic;
use std::alloc::Global;
use std::test::Fail;
use values::currency::Currency;

const MEBIBYTE: usize = 1_048_576;

// What stands in a control message before and after what it states.
const BEFORE: &[u8] = b"\x01{1:F01ALFALV22AXXX00000}{2:I198CLRGLV22AXXXN}{4:\r\n:20:R1\r\n:90C:";

const AFTER: &[u8] = b"\r\n-}\x03\r\n";

// Messages of one row each, and the greatest amount that one can count.
const ONE: &[u8] = b"\x01:32A:240229EUR1,\r\n\x03\r\n";

const GREATEST: &[u8] = b"\x01:32A:240229EUR99999999999999,\r\n\x03\r\n";

// The number by which the body is denied, or 0.
fn answer(body: &[u8]) -> Result<u32, Fail> {
    let expected = Expected {
        sender: Bic::read(b"ALFALV22").ok_or("no BIC")?,
        clearing: Bic::read(b"CLRGLV22").ok_or("no BIC")?,
        currency: Currency::new(b"EUR").ok_or("no currency")?,
    };
    Ok(
        judge_body(body, expected)
            .err()
            .map_or(0, |denial| denial.number()),
    )
}

// The answer to a control message that states this, and so many messages after it.
fn answer_to(heap: Global, stated: &[u8], message: &[u8], times: usize) -> Result<u32, Fail> {
    let mut body = Vec::new(heap);
    body.extend_from_slice(BEFORE)?;
    body.extend_from_slice(stated)?;
    body.extend_from_slice(AFTER)?;
    for _ in 0..times {
        body.extend_from_slice(message)?;
    }
    answer(&body)
}

#[test]
fn bodies_without_control(rt: HostRuntime) -> Result<(), Fail> {
    assert_eq!(rt; answer(b"")?, 11);
    assert_eq!(rt; answer(b"\x01")?, 11);
    assert_eq!(rt; answer(ONE)?, 11);
    let mut body = vec![in rt.alloc(); SOH; MEBIBYTE]?;
    assert_eq!(rt; answer(&body)?, 11, "a frame that never ends");
    body.push(SOH)?;
    assert_eq!(rt; answer(&body)?, 10, "a byte too long");
    Ok(())
}

#[test]
fn counts(rt: HostRuntime) -> Result<(), Fail> {
    let heap = rt.alloc();
    assert_eq!(rt; answer_to(heap, b"1EUR1,", ONE, 1)?, 0);
    assert_eq!(rt; answer_to(heap, b"002EUR2,0", ONE, 2)?, 0, "zeros in front");
    assert_eq!(rt; answer_to(heap, b"0002EUR2,", ONE, 2)?, 11, "four digits");
    assert_eq!(rt; answer_to(heap, b"2USD2,", ONE, 2)?, 11, "another currency");
    assert_eq!(rt;
        answer_to(heap, b"1EUR1,", b"?", 1)?,
        11,
        "a byte outside frames"
    );
    assert_eq!(rt; answer_to(heap, b"0EUR0,", ONE, 0)?, 12, "no message");
    assert_eq!(rt; answer_to(heap, b"1EUR1,", ONE, 2)?, 12);
    assert_eq!(rt; answer_to(heap, b"999EUR999,", ONE, 1000)?, 12);
    Ok(())
}

#[test]
fn sums(rt: HostRuntime) -> Result<(), Fail> {
    let heap = rt.alloc();
    assert_eq!(rt;
        answer_to(heap, b"3EUR3,01", ONE, 3)?,
        13,
        "a cent too much"
    );
    assert_eq!(rt;
        answer_to(heap, b"3EUR2,99", ONE, 3)?,
        13,
        "a cent too little"
    );
    assert_eq!(rt; answer_to(heap, b"999EUR999,", ONE, 999)?, 0);
    assert_eq!(rt; answer_to(heap, b"1EUR99999999999999,", GREATEST, 1)?, 0);
    assert_eq!(rt;
        answer_to(heap, b"999EUR99999999999999,", GREATEST, 999)?,
        13
    );
    assert_eq!(rt;
        answer_to(heap, b"1EUR0,", b"\x01\x03\r\n", 1)?,
        0,
        "an empty message counts nothing"
    );
    assert_eq!(rt;
        counted_amount(b"?\r\n:32A:bad\r\n:32A:240229EUR1,\r\n"),
        0,
        "the first row decides"
    );
    Ok(())
}
