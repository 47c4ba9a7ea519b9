// The blocks of a frame's content: `{1:`, block 1, `}{2:`, block 2, `}{4:` CrLf, the text, `-}`.
ghost use Rattle.std.specs.Prelude.{◌≡◌};
ghost use Rattle.frames.specs.Blocks.{parts_in, read_as, named_in};
ghost use Rattle.frames.specs.Layout.{framed, blocks_of, named_at, sender_of, type_of, receiver_of, in_branch, BlocksLaw, SenderLaw, ReceiverLaw};

use crate::fixed::{AFTER_TEXT, BEFORE_FIRST, BEFORE_SECOND, BEFORE_TEXT};
use text::class::Class;
use text::slices::{begins, front, same, skip};

// Blocks 1 and 2, each of permitted characters, and the text, of any bytes.
#[derive(Clone, Copy)]
pub struct Blocks<'a> {
    pub first: &'a [u8],
    pub second: &'a [u8],
    pub text: &'a [u8],
}

// A BIC and its branch.
#[derive(Clone, Copy)]
pub struct Address<'a> {
    pub bic: &'a [u8],
    pub branch: &'a [u8],
}

const FIRST_SIZE: usize = 20;

const SECOND_SIZE: usize = 17;

const FIRST_AT: usize = BEFORE_FIRST.len();

const FIRST_END: usize = FIRST_AT + FIRST_SIZE;

const SECOND_AT: usize = FIRST_END + BEFORE_SECOND.len();

const SECOND_END: usize = SECOND_AT + SECOND_SIZE;

const TEXT_AT: usize = SECOND_END + BEFORE_TEXT.len();

const SHORTEST: usize = TEXT_AT + AFTER_TEXT.len();

// Block 1: three fillers, the sender's BIC, a filler, its branch, five fillers.
const SENDER_AT: usize = 3;

const SENDER_BRANCH_AT: usize = SENDER_AT + BIC_SIZE + 1;
// Block 2: a filler, the type, the receiver's BIC, a filler, its branch, a filler.
const TYPE_AT: usize = 1;

const RECEIVER_AT: usize = TYPE_AT + TYPE_SIZE;

const RECEIVER_BRANCH_AT: usize = RECEIVER_AT + BIC_SIZE + 1;

const BIC_SIZE: usize = 8;

const BRANCH_SIZE: usize = 3;

const TYPE_SIZE: usize = 3;

// The branch of every address.
const BRANCH: &[u8] = b"XXX";

impl<'a> Blocks<'a> {
    // The blocks of a content, unless it is not made so.
    pub fn read(content: &'a [u8]) -> Option<Blocks<'a>>
        ensures read { read_as result ≡ blocks_of content.now }
        ensures law { BlocksLaw }
    {
        if !is_framed(content) {
            return None;
        }
        let first = front(skip(content, FIRST_AT), FIRST_SIZE);
        let second = front(skip(content, SECOND_AT), SECOND_SIZE);
        if !Class::Permitted.has_all(first) || !Class::Permitted.has_all(second) {
            return None;
        }
        let text = front(skip(content, TEXT_AT), content.len() - SHORTEST);
        Some(Blocks {
            first,
            second,
            text,
        })
    }

    pub fn sender(&self) -> Address<'a>
        ensures sender { named_in result ≡ sender_of (parts_in self.now).first }
        ensures law { SenderLaw }
    {
        address_at(self.first, SENDER_AT, SENDER_BRANCH_AT)
    }

    // The three characters of the type.
    pub fn type_digits(&self) -> &'a [u8]
        ensures { result.now ≡ type_of (parts_in self.now).second }
    {
        front(skip(self.second, TYPE_AT), TYPE_SIZE)
    }

    pub fn receiver(&self) -> Address<'a>
        ensures receiver { named_in result ≡ receiver_of (parts_in self.now).second }
        ensures law { ReceiverLaw }
    {
        address_at(self.second, RECEIVER_AT, RECEIVER_BRANCH_AT)
    }
}

impl<'a> Address<'a> {
    // Whether the branch is that of every address.
    pub fn is_in_branch(self) -> bool
        ensures { result ≡ in_branch (named_in self.entry) }
    {
        same(self.branch, BRANCH)
    }
}

// Whether the fixed bytes stand in their places.
fn is_framed(content: &[u8]) -> bool
    ensures { result ≡ framed content.now }
{
    content.len() >= SHORTEST
        && begins(content, BEFORE_FIRST)
        && begins(skip(content, FIRST_END), BEFORE_SECOND)
        && begins(skip(content, SECOND_END), BEFORE_TEXT)
        && begins(skip(content, content.len() - AFTER_TEXT.len()), AFTER_TEXT)
}

fn address_at<'a>(block: &'a [u8], bic_at: usize, branch_at: usize) -> Address<'a>
    ensures { named_in result ≡ named_at block.now bic_at branch_at }
{
    Address {
        bic: front(skip(block, bic_at), BIC_SIZE),
        branch: front(skip(block, branch_at), BRANCH_SIZE),
    }
}
