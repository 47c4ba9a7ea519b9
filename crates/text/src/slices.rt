// Parts of a slice, with no bound to keep: what is not there is left out.
ghost use Rattle.std.specs.Prelude.{◌≡◌, length, take, drop, slice_index};
ghost use Rattle.std.specs.Str.{bytes_eq};

// The first `n` bytes, or all where there are fewer.
pub fn front<'a>(s: &'a [u8], n: usize) -> &'a [u8]
    ensures { result.now ≡ take n s.now }
{
    s.get(..n).unwrap_or(s)
}

// What follows the first `n` bytes.
pub fn skip<'a>(s: &'a [u8], n: usize) -> &'a [u8]
    ensures { result.now ≡ drop n s.now }
{
    s.get(n..).unwrap_or(&[])
}

// The byte at `i`, or 0 past the end.
pub fn byte(s: &[u8], i: usize) -> u8
    ensures { result ≡ slice_index s.now i }
{
    s.get(i).copied().unwrap_or(0)
}

// Whether the two hold the same bytes: `==` and, below, `starts_with`, each by the word that the rules have for it.
pub fn same(a: &[u8], b: &[u8]) -> bool
    ensures { result ≡ bytes_eq a.now b.now }
{
    a == b
}

// Whether the slice begins with the bytes of `start`.
pub fn begins(s: &[u8], start: &[u8]) -> bool
    ensures { result ≡ bytes_eq (take (length start.now) s.now) start.now }
{
    s.starts_with(start)
}
