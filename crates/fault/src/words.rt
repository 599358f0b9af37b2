//! Faults in words, each as one line.
ghost use Rattle.fault.specs.Numbers.{step_of};
ghost use Rattle.fault.specs.Words.{because, line, position, reason, words_of};
ghost use Rattle.std.specs.Prelude.{◌≡◌, Some};

use crate::{Fault, Refusal};
use std::error::Error;
use std::fmt;

/// What was refused.
fn words(refusal: Refusal) -> &'static str
    ensures { result.now ≡ words_of refusal }
{
    match refusal {
        Refusal::TooManyCells => "width times height is 2^64 or more",
        Refusal::InputLength => "the input or front does not hold width times height elements",
        Refusal::OutputLength => "the output or spare does not hold width times height elements",
        Refusal::SquareSides => "log_stride is above 40, or log_size is above log_stride",
        Refusal::SquareOutside => "the last cell of the square is not in the row",
        Refusal::NotPowerOfTwo => "the size is not a power of two",
        Refusal::BitLength => "there are more than 64 bits, or none for a number that is not 0",
        Refusal::BlockLength => "the size is not that of all blocks together",
        Refusal::Outside => "the place or tile is not inside",
        Refusal::NoRecord => "the table is empty, or next leads past its end",
        Refusal::BadRecord => "the record is no step",
        Refusal::TooManySteps => "the plan has more than 64 steps",
        Refusal::TooLong => "there are more than 16777216 elements",
        Refusal::StepRefused => "the step does not fit the length",
        Refusal::FittedLength => "a buffer does not have the length that the plan is fitted to",
        Refusal::NoShape => "the name has no shape",
        Refusal::TableBytes => "the bytes are not 20 for each record of the table",
    }
}

impl fmt::Display for Refusal {
    ghost output = { λ r. Some (reason r) };

    fn fmt<W: fmt::Write>(&self, f: &mut fmt::Formatter<W>) -> fmt::Result {
        write!(f, "refusal {}: {}", self.number(), words(*self))
    }
}

/// Where in a plan a fault lies, as the start of its line.
#[derive(Clone, Copy)]
struct Position(Fault);

impl fmt::Display for Position {
    ghost output = { λ p. Some (position p.0.refusal p.0.«record» (step_of p.0.below)) };

    fn fmt<W: fmt::Write>(&self, f: &mut fmt::Formatter<W>) -> fmt::Result {
        let fault = self.0;
        match fault.refusal {
            Refusal::StepRefused => write!(f, "record {}, step {}, ", fault.record, fault.step()),
            refusal if refusal.of_record() => write!(f, "record {}, ", fault.record),
            _ => Ok(()),
        }
    }
}

impl fmt::Display for Fault {
    ghost output = { λ x. Some (line x) };

    fn fmt<W: fmt::Write>(&self, f: &mut fmt::Formatter<W>) -> fmt::Result {
        let position = Position(*self);
        match self.below {
            Some(below) => write!(f, "{position}{} ({})", self.refusal, below.cause),
            None => write!(f, "{position}{}", self.refusal),
        }
    }
}

// Written out: a derived one would show how step and cause are held, and its text would change with that.
impl fmt::Debug for Fault {
    fn fmt<W: fmt::Write>(&self, f: &mut fmt::Formatter<W>) -> fmt::Result {
        f.debug_struct("Fault")
            .field("refusal", &self.refusal)
            .field("record", &self.record)
            .field("step", &self.step())
            .field("cause", &self.below.map(|below| below.cause))
            .finish()
    }
}

impl Error for Fault {}
