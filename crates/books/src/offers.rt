// What is common to every book: whether an offer is sound, and how a house stands under one.
ghost use Rattle.std.specs.Prelude.{◌≡◌, ◌≤◌, length, ℤ, pos, ◌+ℤ◌, Decides};
ghost use Rattle.keeper.specs.Covers.{most_houses, most_together};
ghost use Rattle.keeper.specs.Offers.{Sound, WithinLimit, AllWithinLimit, sum_ℤ};

const POSITION_LIMIT: i64 = 4_096_000_000_000;

fn is_within_limit(p: i64) -> bool
    ensures { Decides result (WithinLimit p) }
{
    (-POSITION_LIMIT..=POSITION_LIMIT).contains(&p)
}

fn all_within_limit(ps: &[i64]) -> bool
    ensures { Decides result (AllWithinLimit ps.now) }
{
    ps.iter().all(|p| is_within_limit(*p))
}

fn sum_of(ps: &[i64]) -> i64
    requires few { length ps.now ≤ most_houses }
    requires within { AllWithinLimit ps.now }
    ensures { result ≡ sum_ℤ ps.now }
{
    // no `sum`, which at signed numbers has no bound to prove
    let mut sum = 0;
    for p in ps {
        sum += *p;
    }
    sum
}

pub(crate) fn is_sound(ps: &[i64], houses: usize) -> bool
    requires { houses ≤ most_houses }
    ensures { Decides result (Sound houses ps.now) }
{
    ps.len() == houses && all_within_limit(ps) && sum_of(ps) == 0
}
