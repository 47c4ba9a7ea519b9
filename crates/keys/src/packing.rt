// A text of few bytes as one number.
ghost use Rattle.std.specs.Prelude.{◌≡◌, ℕ, ◌<◌, ◌≤◌, length, slice_index};
ghost use Rattle.keys.specs.Texts.{spelled};

// The number that stands for the text.
pub(crate) fn packed(text: &[u8]) -> u128
    requires short { length text.now ≤ 16 }
    requires plain { (i : ℕ) → i < length text.now → 0 < slice_index text.now i }
    ensures { spelled result ≡ text.now }
{
    let mut n: u128 = 0;
    for b in text {
        n = n * 256 + u128::from(*b);
    }
    n
}
