// The public functions on the worked examples and at their edges.
use crate::accounts::{bank_of, is_latvian_account};
use crate::bics::is_bic;
use crate::instructions::{is_hold, is_instruction};

#[test]
fn accounts_and_bics(rt: HostRuntime) {
    assert!(rt; is_latvian_account(b"LV80BANK0000435195001"));
    assert!(rt; !is_latvian_account(b"LV81BANK0000435195001"));
    assert!(rt; !is_latvian_account(b"LV80BANK000043519500"));
    assert!(rt; bank_of(b"LV80BANK0000435195001") == b"BANK".as_slice());
    assert!(rt; is_bic(b"BANKLV22"));
    assert!(rt; !is_bic(b"BANKL122"));
}

#[test]
fn instructions_of_the_table(rt: HostRuntime) {
    assert!(rt; is_instruction(b"CHQB"));
    assert!(rt; !is_instruction(b"CHQB/X"));
    assert!(rt; is_instruction(b"TELI/123456789012345678901234567890"));
    assert!(rt; !is_instruction(b"TELI/1234567890123456789012345678901"));
    assert!(rt; !is_instruction(b"HOLD/"));
    assert!(rt; is_hold(b"HOLD/X"));
    assert!(rt; !is_hold(b"PHOB"));
}
