// Fields on examples and at their edges.
use crate::party::{payee, payer};
use crate::run::{reason, remittance};
use crate::shape::Field;
use crate::single::{bank, reference};
use crate::terms::Terms;
use crate::value::{counted, value};
use cuts::tagged::Tagged;
use faults::Fault;
use text::tag::Tag;

const TERMS: Terms = Terms {
    day: [b'2', b'4', b'0', b'2', b'2', b'5'],
    currency: [b'L', b'V', b'L'],
};

fn tagged<'a>(number: u8, letter: Option<u8>, bytes: &'a [u8]) -> Tagged<'a> {
    let tag = Tag { number, letter };
    Tagged { tag, bytes }
}

// The code and the row of a fault, or 0 and 0.
fn at(read: Result<Field, Fault>) -> (u16, u64) {
    read.err()
        .map_or((0, 0), |fault| (fault.code.number(), fault.row))
}

#[test]
fn parties(rt: HostRuntime) {
    let k = Some(b'K');
    assert_eq!(rt;
        at(payer(tagged(50, k, b"/LV80BANK0000435195001\r\nA NAME\r\n"))),
        (0, 0)
    );
    assert_eq!(rt;
        at(payer(tagged(50, k, b"/LV81BANK0000435195001\r\nA NAME\r\n"))),
        (8431, 1)
    );
    assert_eq!(rt; at(payer(tagged(50, k, b"A NAME\r\n/1\r\n"))), (8412, 2));
    assert_eq!(rt; at(payee(tagged(59, None, b"/1\r\n"))), (8413, 0));
    assert_eq!(rt; at(payee(tagged(59, None, b"/\r\nA NAME\r\n"))), (7006, 1));
    assert_eq!(rt;
        at(payee(tagged(59, None, b"A\r\nB\r\nC\r\nD\r\nE\r\n"))),
        (7006, 5)
    );
    assert_eq!(rt; at(payee(tagged(59, k, b"A NAME\r\n"))), (7006, 1));
}

#[test]
fn values(rt: HostRuntime) {
    let a = Some(b'A');
    assert_eq!(rt;
        at(value(tagged(32, a, b"240225LVL10000000,\r\n"), TERMS)),
        (0, 0)
    );
    assert_eq!(rt;
        at(value(tagged(32, a, b"240225LVL10000000,01\r\n"), TERMS)),
        (8429, 0)
    );
    assert_eq!(rt;
        at(value(tagged(32, a, b"240225LVL0,00\r\n"), TERMS)),
        (8411, 0)
    );
    assert_eq!(rt;
        at(value(tagged(32, a, b"240225EUR1,\r\n"), TERMS)),
        (8410, 0)
    );
    assert_eq!(rt;
        at(value(tagged(32, a, b"240226LVL1,\r\n"), TERMS)),
        (8409, 0)
    );
    assert_eq!(rt;
        at(value(tagged(32, a, b"240225LVL1,\r\nX\r\n"), TERMS)),
        (7006, 2)
    );
    assert_eq!(rt; counted(b"999999EUR0,5"), 50);
}

#[test]
fn rows_and_codes(rt: HostRuntime) {
    assert_eq!(rt; at(reference(tagged(20, None, b"A/B\r\n"))), (0, 0));
    assert_eq!(rt; at(reference(tagged(20, None, b"A//B\r\n"))), (7006, 1));
    assert_eq!(rt; at(bank(tagged(57, None, b"BANKLV22\r\n"))), (7007, 1));
    assert_eq!(rt;
        at(remittance(tagged(70, None, b"A\r\n\r\nB\r\n"))),
        (7006, 2)
    );
    assert_eq!(rt;
        at(reason(tagged(72, None, b"/REJECT/A01\r\nX\r\n"))),
        (0, 0)
    );
    assert_eq!(rt; at(reason(tagged(72, None, b"/RETURN/A01\r\n"))), (8427, 0));
    assert_eq!(rt;
        at(reason(tagged(72, None, b"/REJECT/A011\r\n"))),
        (8428, 0)
    );
}
