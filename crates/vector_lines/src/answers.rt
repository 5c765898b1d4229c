// Answers of the library as counts and numbers: printed, and compared with the one that a line wants.
ghost use Rattle.std.specs.Prelude.{◌≡◌};
ghost use Rattle.vector_lines.specs.declared.answers.Failure.TheVariants.{Refused};
ghost use Rattle.vector_lines.specs.Failure as Failed;

use crate::lines::{Line, Word};
use outcomes::{Answer, Refusal};

// Why nothing came of a run: the library refused a call, or the run is none that can be made, which is no refusal of the document's.
#[derive(Clone, Copy)]
pub enum Failure {
    Refused(Refusal),
    Unmade,
}

impl From<Refusal> for Failure {
    ghost from_gives = { λ r e. e ≡ Refused r };

    fn from(r: Refusal) -> Failure {
        Failure::Refused(r)
    }
}

impl Failure {
    // Document 01's number of the refusal; 0 is none of the document's.
    pub fn number(self) -> usize
        ensures { result ≡ Failed.number self }
    {
        match self {
            Failure::Refused(r) => r.number() as usize,
            Failure::Unmade => 0,
        }
    }
}

// What came of one call or of several: how many tape words were taken, or the failure.
pub type Came = Result<usize, Failure>;

pub fn of(a: Answer) -> Came {
    Ok(a?.taken)
}

// The tape that a call leaves. A refused one leaves none, so that the calls behind it are refused too.
pub fn rest(tape: &[u32], c: Came) -> &[u32] {
    match c {
        Ok(taken) => shares::unused_tape(tape, taken),
        Err(_) => &[],
    }
}

// Whether a line wants this answer.
pub fn is_wanted(line: Line, c: Came) -> bool {
    let number = line.number(Word::Number);
    match (line.letter(Word::Outcome), c) {
        (Some(b't'), Ok(taken)) => taken == number,
        (Some(b'r'), Err(failure)) => failure.number() == number,
        _ => false,
    }
}

pub fn print(c: Came) {
    match c {
        Ok(taken) => text::print_with(b" taken ", taken),
        Err(failure) => text::print_with(b" refused ", failure.number()),
    }
}
