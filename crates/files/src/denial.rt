// Why a file is denied before its messages are judged, each by its number.
ghost use Rattle.std.specs.Prelude.{◌≡◌};
ghost use Rattle.files.specs.Denials.{number_of};

#[derive(Clone, Copy, PartialEq, Eq, Debug)]
pub enum FileDenial {
    // the body is too long
    TooLong = 10,
    // the control message is missing or fails, or bytes stand outside frames
    NoControl = 11,
    // the stated count is not that of the messages, or there are too few or too many of them
    WrongCount = 12,
    // the stated total is not the sum of the messages' counted amounts
    WrongSum = 13,
}

impl FileDenial {
    // The number that the denial is answered by. No crate of files stands on the keeper, whose trait tells such numbers.
    pub fn number(self) -> u32
        ensures { result ≡ number_of self }
    {
        self as u32
    }
}
