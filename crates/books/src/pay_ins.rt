// What is common to every book: whether a sum may be paid in.
ghost use Rattle.std.specs.Prelude.{◌≡◌, ◌+◌, ◌≤◌, ◌&&◌, nat_le};
ghost use Rattle.keeper.specs.Covers.{most_together};
ghost use Rattle.keeper.specs.PayIns.{most_paid_in};

const MOST_PAID_IN: u64 = 1_000_000_000_000;

const MOST_TOGETHER: u64 = 1_000_000_000_000_000;

// Where the covers come to this together.
pub(crate) fn is_acceptable(together: u64, amount: u64) -> bool
    requires { together ≤ most_together }
    ensures { result ≡ (nat_le 1 amount && (nat_le amount most_paid_in && nat_le (together + amount) most_together)) }
{
    (1..=MOST_PAID_IN).contains(&amount) && together + amount <= MOST_TOGETHER
}
