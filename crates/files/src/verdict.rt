// The verdict on a file's body.
ghost use Rattle.std.specs.Prelude.{◌≡◌, Ok, Err};
ghost use Rattle.files.specs.Denials.{first_due};
ghost use Rattle.files.specs.Bodies.{control_of_body, right_count, disagreements, answer, body_verdict, Stands};

use crate::control::{Control, Expected};
use crate::denial::FileDenial;
use crate::reading::read_control;
use crate::tally::tally_of;
use frames::reader::Reader;

// The most bytes of a body.
const LONGEST_BODY: usize = 1_048_576;
// The most messages of a file.
const MOST_MESSAGES: usize = 999;

// The control message of a file that the expected sender handed in, or why the file is denied before its messages are judged.
pub fn judge_body(body: &[u8], expected: Expected) -> Result<Control, FileDenial>
    ensures verdict { result ≡ body_verdict body.now expected }
    ensures stands { elim result [ Ok c ↦ Stands body.now c | Err d ↦ Unit {0} ] }
{
    if body.len() > LONGEST_BODY {
        return Err(FileDenial::TooLong);
    }
    let control = first_control(body, expected).ok_or(FileDenial::NoControl)?;
    against(body, control)
}

// The verdict on the body's frames against what its control message states.
fn against(body: &[u8], control: Control) -> Result<Control, FileDenial>
    ensures verdict { result ≡ answer (first_due (disagreements body.now control)) control }
    ensures stands { elim result [ Ok c ↦ Stands body.now c | Err d ↦ Unit {0} ] }
{
    let tally = tally_of(body, control.total).ok_or(FileDenial::NoControl)?;
    if !is_right_count(control.count, tally.messages) {
        return Err(FileDenial::WrongCount);
    }
    if !tally.agrees {
        return Err(FileDenial::WrongSum);
    }
    Ok(control)
}

// What the first frame states.
#[tactic(auto, unfolding(crate::specs::Bodies::control_of_body))]
fn first_control(body: &[u8], expected: Expected) -> Option<Control>
    ensures { result ≡ control_of_body body.now expected }
{
    read_control(Reader::new(body).next()?, expected)
}

// Whether there are as many messages as stated, and neither none nor too many.
fn is_right_count(stated: usize, messages: usize) -> bool
    ensures { result ≡ right_count stated messages }
{
    stated == messages && messages >= 1 && messages <= MOST_MESSAGES
}
