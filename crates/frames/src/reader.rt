// The frames of a body, one by one. A frame is 01h, its content up to the first 03h, that 03h and CrLf.
ghost use Rattle.std.specs.Prelude.{◌≡◌, ◌+◌, ◌<◌, ◌≤◌, [], ◌∷◌, ◌++◌, length, drop, Some, None, ◌==◌};
ghost use Rattle.std.specs.Iterator.{at_most};
ghost use Rattle.frames.specs.Frames.{frame, frames_in, only_frames, frame_count, FramesLaw};
ghost use Rattle.frames.specs.Reading.{unread, GivesFrame};

use crate::fixed::{ETX, FRAME_END, SOH};
use text::chars::find;
use text::slices::{begins, byte, front, skip};

// What a frame has besides its content: 01h, 03h and CrLf.
const FRAMING: usize = 4;

// A body and the place up to which it is read: a rule of the project wants the place beside the body, and not a part of the body.
#[derive(Drop)]
pub struct Reader<'a> {
    body: &'a [u8],
    at: usize,
}

impl<'a> Reader<'a> {
    pub fn new(body: &'a [u8]) -> Reader<'a>
        ensures { unread result ≡ body.now }
    {
        Reader { body, at: 0 }
    }

    // Whether all of the body is read.
    pub fn at_end(&self) -> bool
        ensures { result ≡ (length (unread self.now) == 0) }
    {
        self.at >= self.body.len()
    }
}

impl<'a> Iterator for Reader<'a> {
    type Item = &'a [u8];

    ghost next_gives = { GivesFrame };

    ghost remaining = { λ r. at_most (length (unread r)) };

    // The content of the frame at the place, which then moves past it; nothing where no frame stands there.
    fn next(&mut self) -> Option<&'a [u8]> {
        let content = frame_at(self.body, self.at)?;
        self.at += content.len() + FRAMING;
        Some(content)
    }
}

// The number of frames, unless bytes stand outside frames.
#[tactic(auto, using(crate::proofs::Reading::counted))]
pub fn count(body: &[u8]) -> Option<usize>
    ensures counted { result ≡ frame_count body.now }
    ensures law { FramesLaw }
{
    let mut reader = Reader::new(body);
    let mut frames = 0;
    // no `for` over the borrowed reader, since no contract says where that leaves it
    while let Some(_) = reader.next() {
        frames += 1;
    }
    reader.at_end().then_some(frames)
}

// The content of the frame that begins at the place, if one does.
fn frame_at<'a>(body: &'a [u8], at: usize) -> Option<&'a [u8]>
    ensures frames { frames_in (drop at body.now) ≡ elim result [ None ↦ [] | Some c ↦ c.now ∷ frames_in (drop (at + (length c.now + 4)) body.now) ] }
    ensures parts { elim result [ None ↦ Unit {0} | Some c ↦ drop at body.now ≡ frame c.now ++ drop (at + (length c.now + 4)) body.now ] }
    ensures outside { elim result [ None ↦ Unit {0} | Some c ↦ only_frames (drop at body.now) ≡ only_frames (drop (at + (length c.now + 4)) body.now) ] }
    ensures shorter { elim result [ None ↦ Unit {0} | Some c ↦ length (drop (at + (length c.now + 4)) body.now) < length (drop at body.now) ] }
    ensures within { elim result [ None ↦ Unit {0} | Some c ↦ at + (length c.now + 4) ≤ length body.now ] }
{
    let rest = skip(body, at);
    if byte(rest, 0) != SOH {
        return None;
    }
    let inner = skip(rest, 1);
    let size = find(inner, ETX);
    if !begins(skip(inner, size), FRAME_END) {
        return None;
    }
    Some(front(inner, size))
}
