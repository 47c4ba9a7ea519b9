// The program: a script in, a line or more for each command out. It only reads, calls and prints; what a line means
// and what a command does is decided in the libraries.

#![tactic(auto)]

use keeper::{Keeper, Numbered, OfferAnswer, OfferDenial};
use script::command::{Command, LineError};
use script::read::read_line;
use session::{AnyBook, Session};
use std::alloc::Global;
use std::io::{BufRead, BufReader, BufWriter, Write};
use std::process::ExitCode;
use std::{fmt, io};

#[cfg(test)]
mod tests;

// Why the program ends early.
#[derive(Drop)]
enum Stop {
    // the line cannot be carried out
    Line(LineError),
    // it could not be read, or its answer not be written
    Io(io::Error),
}

impl fmt::Display for Stop {
    fn fmt<W: fmt::Write>(&self, f: &mut fmt::Formatter<W>) -> fmt::Result {
        match self {
            Stop::Line(e) => write!(f, "{e}"),
            Stop::Io(_) => write!(f, "input or output failed"),
        }
    }
}

impl From<LineError> for Stop {
    fn from(e: LineError) -> Stop {
        Stop::Line(e)
    }
}

impl From<io::Error> for Stop {
    fn from(e: io::Error) -> Stop {
        Stop::Io(e)
    }
}

// A call and the number that it was answered.
fn print_answer<W: Write>(out: &mut W, call: &str, answer: &impl Numbered) -> io::Result<()> {
    let number = answer.number();
    writeln!(out, "{call}: {number}")
}

// An answer is a Result of the library's, to which no Display of ours can be given: so a function prints it.
fn print_offer<W: Write>(out: &mut W, answer: OfferAnswer) -> io::Result<()> {
    let number = answer.number();
    write!(out, "offer: {number}")?;
    if let Err(OfferDenial::Short { place, cover }) = answer {
        write!(out, ", house {place}, cover {cover}")?;
    }
    writeln!(out)
}

fn print_covers<W: Write>(out: &mut W, book: &AnyBook) -> io::Result<()> {
    write!(out, "covers:")?;
    // a keeper is asked for a cover by its house's place
    for place in 0..book.houses() {
        if let Ok(cover) = book.cover(place) {
            write!(out, " {cover}")?;
        }
    }
    let sittings = book.sittings_left();
    writeln!(out, ", sittings {sittings}")
}

fn carry_out<W: Write>(
    out: &mut W,
    heap: Global,
    session: &mut Session,
    line: &[u8],
) -> Result<(), Stop> {
    match read_line(heap, line)? {
        Command::Nothing => {}
        Command::Book {
            kind,
            sittings,
            sums,
        } => {
            print_answer(
                out,
                "book",
                &session.open_book(heap, kind, sittings, &sums)?,
            )?
        }
        Command::Offer { positions } => print_offer(out, session.offer(&positions)?)?,
        Command::PayIn { place, cents } => {
            print_answer(out, "pay-in", &session.pay_in(place, cents)?)?
        }
        Command::Covers => print_covers(out, session.book()?)?,
    }
    Ok(())
}

// Says on standard error why the program stops, after all that was printed before.
fn report<W: Write>(rt: &impl Eprint, out: &mut W, number: usize, stop: &Stop) -> io::Result<()> {
    out.flush()?;
    eprintln!(rt; "line {number}: {stop}")
}

fn main(rt: HostRuntime) -> io::Result<ExitCode> {
    let heap = rt.alloc();
    let mut out = BufWriter::new(heap, rt.stdout())?;
    let mut session = Session::new();
    for (i, line) in BufReader::new(heap, rt.stdin())?
        .split(heap, b'\n')
        .enumerate()
    {
        let carried = line
            .map_err(Stop::Io)
            .and_then(|text| carry_out(&mut out, heap, &mut session, &text));
        if let Err(stop) = carried {
            report(&rt, &mut out, i.saturating_add(1), &stop)?;
            return Ok(ExitCode::FAILURE);
        }
    }
    out.flush()?;
    Ok(ExitCode::SUCCESS)
}
