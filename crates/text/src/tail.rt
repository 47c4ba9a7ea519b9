// Text that is laid out from the end of an array.
ghost use Rattle.std.specs.Prelude.{◌≡◌, ◌≤◌, drop};

// The last bytes of an array, from `start` on: no `String`, as nothing is allocated after the opening.
#[derive(Clone, Copy, Debug)]
pub struct Tail<const N: usize> {
    pub bytes: [u8; N],
    pub start: usize,
    pub ghost within: { start ≤ N },
}

impl<const N: usize> Tail<N> {
    pub fn as_slice(&self) -> &[u8]
        ensures { result.now ≡ drop self.now.start self.now.bytes }
    {
        let bytes = &self.bytes[..];
        &bytes[self.start..]
    }
}
