// A book of any kind is opened.
ghost use Rattle.std.specs.Prelude.{◌≡◌, MatchResult};
ghost use Rattle.books.specs.Opening.{Openable, OpenDenied};
ghost use Rattle.session.specs.Books.{covers_in, sittings_in, kind_of, pledges_in, pledges_at};

use crate::any_book::AnyBook;
use books::{AccountBook, GuaranteeBook, OpenDenial};
use script::command::Kind;
use std::alloc::Global;

pub(crate) fn open_kind(
    heap: Global,
    kind: Kind,
    sums: &[u64],
    sittings: u64,
) -> Result<AnyBook, OpenDenial>
    ensures { MatchResult result (λ b. Openable sums.now sittings × (kind_of b ≡ kind) × (covers_in b ≡ sums.now) × (pledges_in b ≡ pledges_at kind sums.now) × (sittings_in b ≡ sittings)) (λ e. OpenDenied sums.now sittings e) }
{
    match kind {
        Kind::Account => AccountBook::open(heap, sums, sittings).map(AnyBook::Account),
        Kind::Guarantee => GuaranteeBook::open(heap, sums, sittings).map(AnyBook::Guarantee),
    }
}
