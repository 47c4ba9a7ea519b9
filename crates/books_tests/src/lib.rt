// Both books tried at the edges of their rules: openings, offers and pay-ins. Holds tests alone, so that the books are proved without them.

#![tactic(auto)]

#[cfg(test)]
mod tests {
    use books::{AccountBook, GuaranteeBook, OpenDenial};
    use keeper::{CoverDenial, Keeper, Numbered, OfferAnswer, OfferDenial, PayingIn};
    use std::process::Abort;
    use std::test::Fail;

    const MOST_OPENING: u64 = 1_000_000_000_000;

    const MOST_PAID_IN: u64 = 1_000_000_000_000;

    // the furthest that a position may be from 0
    const LIMIT: i64 = 4_096_000_000_000;

    const TAKEN: OfferAnswer = Ok(());

    const NO_SITTING: OfferAnswer = Err(OfferDenial::NoSitting);

    const UNSOUND: OfferAnswer = Err(OfferDenial::Unsound);

    fn short(place: usize, cover: u64) -> OfferAnswer {
        Err(OfferDenial::Short { place, cover })
    }

    #[derive(Clone, Copy)]
    struct Trial {
        positions: [i64; 3],
        account: OfferAnswer,
        guarantee: OfferAnswer,
    }

    fn tried(positions: [i64; 3], account: OfferAnswer, guarantee: OfferAnswer) -> Trial {
        Trial {
            positions,
            account,
            guarantee,
        }
    }

    // With covers of 100, 50 and 0 and two sittings; from the first that is taken on with covers of 0, 150 and 0.
    fn trials() -> [Trial; 10] {
        [
            tried([1, 0, 0], UNSOUND, UNSOUND),
            tried([-LIMIT - 1, LIMIT + 1, 0], UNSOUND, UNSOUND),
            tried([LIMIT, -LIMIT, 0], short(1, 50), short(1, 50)),
            tried([-101, 101, 0], short(0, 100), short(0, 100)),
            tried([-101, -60, 161], short(0, 100), short(1, 50)),
            tried([-110, -60, 170], short(0, 100), short(0, 100)),
            tried([-100, 100, 0], TAKEN, TAKEN),
            tried([-1, -151, 152], short(0, 0), short(0, 0)),
            tried([0, -150, 150], TAKEN, TAKEN),
            tried([0, 0, 0], NO_SITTING, NO_SITTING),
        ]
    }

    #[test]
    fn offers(rt: HostRuntime) -> Result<(), Fail> {
        let mut account = AccountBook::open(rt.alloc(), &[100, 50, 0], 2)?;
        let mut guarantee = GuaranteeBook::open(rt.alloc(), &[100, 50, 0], 2)?;
        for t in trials() {
            assert_eq!(rt; account.offer(&t.positions), t.account);
            assert_eq!(rt; guarantee.offer(&t.positions), t.guarantee);
        }
        assert_eq!(rt; account.cover(2), Ok(150));
        assert_eq!(rt; guarantee.cover(2), Ok(150));
        Ok(())
    }

    #[test]
    fn numbers(rt: HostRuntime) {
        assert_eq!(rt; TAKEN.number(), 0);
        assert_eq!(rt; NO_SITTING.number(), 16);
        assert_eq!(rt; short(0, 100).number(), 17);
        assert_eq!(rt; UNSOUND.number(), 21);
    }

    fn tell_lengths<K: Keeper>(rt: &impl Abort, book: &mut K) {
        let zeros = [0; 65];
        assert_eq!(rt; book.houses(), 64);
        assert_eq!(rt; book.cover(63), Ok(MOST_OPENING));
        assert_eq!(rt; book.cover(64), Err(CoverDenial::NoSuchHouse));
        assert_eq!(rt; book.offer(&[]), UNSOUND);
        assert_eq!(rt; book.offer(&zeros[0..63]), UNSOUND);
        assert_eq!(rt; book.offer(&zeros), UNSOUND);
        assert_eq!(rt; book.sittings_left(), 255);
        assert_eq!(rt; book.offer(&zeros[0..64]), TAKEN);
        assert_eq!(rt; book.sittings_left(), 254);
    }

    // From 64,000,000,000,000 cents together up to the most.
    fn fill<K: PayingIn>(rt: &impl Abort, book: &mut K) {
        assert_eq!(rt; book.pay_in(64, 1).number(), 1);
        assert_eq!(rt; book.pay_in(0, 0).number(), 19);
        assert_eq!(rt; book.pay_in(0, MOST_PAID_IN + 1).number(), 19);
        for _ in 0..936 {
            assert_eq!(rt; book.pay_in(7, MOST_PAID_IN).number(), 0);
        }
        assert_eq!(rt; book.pay_in(0, 1).number(), 19);
        assert_eq!(rt; book.cover(7), Ok(937 * MOST_PAID_IN));
        assert_eq!(rt; book.cover(0), Ok(MOST_OPENING));
    }

    #[test]
    fn largest(rt: HostRuntime) -> Result<(), Fail> {
        let mut account = AccountBook::open(rt.alloc(), &[MOST_OPENING; 64], 255)?;
        let mut guarantee = GuaranteeBook::open(rt.alloc(), &[MOST_OPENING; 64], 255)?;
        tell_lengths(&rt, &mut account);
        tell_lengths(&rt, &mut guarantee);
        fill(&rt, &mut account);
        fill(&rt, &mut guarantee);
        Ok(())
    }

    fn check_denied(rt: &(impl Abort + AllocGlobal), sums: &[u64], sittings: u64) {
        assert_eq!(rt;
            AccountBook::open(rt.alloc(), sums, sittings).err(),
            Some(OpenDenial::BreaksRule)
        );
        assert_eq!(rt;
            GuaranteeBook::open(rt.alloc(), sums, sittings).err(),
            Some(OpenDenial::BreaksRule)
        );
    }

    #[test]
    fn openings(rt: HostRuntime) {
        check_denied(&rt, &[], 1);
        check_denied(&rt, &[0; 65], 1);
        check_denied(&rt, &[0, MOST_OPENING + 1], 1);
        check_denied(&rt, &[0], 0);
        check_denied(&rt, &[0], 256);
    }
}
