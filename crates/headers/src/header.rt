// A message's header, read and checked.
ghost use Rattle.std.specs.Prelude.{◌≡◌};
ghost use Rattle.settings.specs.Opened.{houses_of};
ghost use Rattle.headers.specs.Headers.{header_of};
ghost use Rattle.headers.specs.Read.{seen_header};

use crate::sender::Sender;
use faults::{Code, Fault};
use frames::blocks::Blocks;
use text::slices::same;

// The receiver's place and BIC, and the text that follows the header.
#[derive(Clone, Copy)]
pub struct Header<'a> {
    pub receiver: usize,
    pub bic: &'a [u8],
    pub text: &'a [u8],
}

impl<'a> Header<'a> {
    // The header of a content that a house sends as a message of the type with these digits.
    pub fn read(digits: [u8; 3], sender: Sender, content: &'a [u8]) -> Result<Header<'a>, Fault>
        ensures { seen_header result ≡ header_of digits (houses_of sender.entry.settings.now) sender.entry.place content.now }
    {
        let blocks = Blocks::read(content).ok_or(Fault::of_message(Code::F01))?;
        if !sender.is_at(blocks.sender()) {
            return Err(Fault::of_message(Code::H04));
        }
        if !same(blocks.type_digits(), &digits) {
            return Err(Fault::of_message(Code::H06));
        }
        let address = blocks.receiver();
        let receiver = sender
            .receiver_at(address)
            .ok_or(Fault::of_message(Code::H05))?;
        Ok(Header {
            receiver,
            bic: address.bic,
            text: blocks.text,
        })
    }
}
