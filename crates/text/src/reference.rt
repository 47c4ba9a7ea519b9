// The references by which senders call their messages.
ghost use Rattle.std.specs.Prelude.{◌≡◌, slice_index};
ghost use Rattle.text.specs.Reference.{pair, doubled, is_reference};

use crate::class::Class;

// The most characters that a reference has.
pub const LONGEST: usize = 16;

fn is_pair(s: &[u8]) -> bool
    ensures { result ≡ pair (slice_index s.now 0) (slice_index s.now 1) }
{
    matches!(s, [b'/', b'/', ..])
}

fn double_slash(s: &[u8]) -> bool
    ensures { result ≡ doubled s.now }
{
    s.windows(2).any(is_pair)
}

pub fn is_reference(row: &[u8]) -> bool
    ensures { result ≡ is_reference row.now }
{
    !row.is_empty()
        && row.len() <= LONGEST
        && Class::Permitted.has_all(row)
        && !matches!(row, [b'/', ..] | [.., b'/'])
        && !double_slash(row)
}
