// A line of a script: what is told of it, and why it may have no answer.
use super::refusals::Refused;
use std::alloc::{AllocError, AllocFailed};
use std::fmt::Display;
use std::io;
use std::io::Write;
use words::Refusal;

#[derive(Drop)]
pub struct Line<'a, W> {
    pub out: &'a mut W,
    pub number: u64,
}

impl<W: Write> Line<'_, W> {
    pub fn tell<D: Display + Drop>(&mut self, what: D) -> io::Result<()> {
        let number = self.number;
        writeln!(self.out, "{number}: {what}")
    }
}

// Why a line is told as an error or a refusal, or ends the script.
#[derive(Drop)]
pub enum NoAnswer {
    // It is no call. What was expected.
    Expected(&'static str),
    // It came too early. What it needs.
    Before(&'static str),
    Refused(Refusal),
    Io(io::Error),
}

impl From<io::Error> for NoAnswer {
    fn from(error: io::Error) -> NoAnswer {
        NoAnswer::Io(error)
    }
}

impl From<AllocError> for NoAnswer {
    fn from(error: AllocError) -> NoAnswer {
        NoAnswer::Io(error.into())
    }
}

impl<T: Drop> From<AllocFailed<T>> for NoAnswer {
    fn from(error: AllocFailed<T>) -> NoAnswer {
        NoAnswer::Io(error.into())
    }
}

impl<F: Refused + Drop> From<F> for NoAnswer {
    fn from(fault: F) -> NoAnswer {
        NoAnswer::Refused(fault.refusal())
    }
}
