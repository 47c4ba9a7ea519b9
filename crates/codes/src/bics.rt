// BICs, without branch.
ghost use Rattle.std.specs.Prelude.{◌≡◌};
ghost use Rattle.codes.specs.Bics.{bic_formed};

use text::class::Class;
use text::slices::{front, skip};

// Where the country and the place begin, and how long a BIC is.
const COUNTRY: usize = 4;

const PLACE: usize = 6;

const LENGTH: usize = 8;

// Whether the bytes have a BIC's form: bank, country, place.
pub fn is_bic(s: &[u8]) -> bool
    ensures { result ≡ bic_formed s.now }
{
    s.len() == LENGTH
        && Class::Alphanumeric.has_all(front(s, COUNTRY))
        && Class::Capital.has_all(front(skip(s, COUNTRY), 2))
        && Class::Alphanumeric.has_all(skip(s, PLACE))
}
