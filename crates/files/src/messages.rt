// The messages of a file: what follows its control message.
ghost use Rattle.std.specs.Prelude.{◌≡◌, ◌≤◌, length};
ghost use Rattle.frames.specs.Frames.{frames_in, only_frames};
ghost use Rattle.frames.specs.Reading.{unread};
ghost use Rattle.files.specs.Bodies.{messages_in};

use frames::reader::Reader;

// A reader of the messages: that of the body, past the first frame.
pub fn messages<'a>(body: &'a [u8]) -> Reader<'a>
    ensures messages { frames_in (unread result) ≡ messages_in body.now }
    ensures outside { only_frames (unread result) ≡ only_frames body.now }
    ensures shorter { length (unread result) ≤ length body.now }
{
    let mut reader = Reader::new(body);
    let _ = reader.next();
    reader
}
