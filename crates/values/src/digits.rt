// The digits of numbers.
ghost use Rattle.std.specs.Prelude.{◌≡◌};
ghost use Rattle.values.specs.Digits.{digits, needless};

// The last digits of `n`, zeros in front of a small one.
pub(crate) fn digits<const N: usize>(n: u64) -> [u8; N]
    ensures { result ≡ digits N n }
{
    let mut bytes = [0; N];
    let mut rest = n;
    // by place, since after `iter_mut().rev()` a proof knows nothing of what was written
    for i in 0..N {
        bytes[N - 1 - i] = b'0' + (rest % 10) as u8;
        rest /= 10;
    }
    bytes
}

// How many zeros stand in front, the last digit not counted.
pub(crate) fn needless(s: &[u8]) -> usize
    ensures { result ≡ needless s.now }
{
    let Some((_, front)) = s.split_last() else {
        return 0;
    };
    front.iter().take_while(|b| **b == b'0').count()
}
