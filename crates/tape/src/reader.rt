ghost use Rattle.std.specs.Prelude.{◌≡◌, ◌+◌, ◌<◌, ◌≤◌, length, drop, IfOk};
ghost use Rattle.tape.specs.Codes.{refusing, tape_refusal};
ghost use Rattle.tape.specs.Format.{plain, size_of};
ghost use Rattle.tape.specs.Reading.{Starts, plainly_at, timely, front, step, told, place_after, time_after, parse, count};
ghost use Rattle.tape.specs.Sound.{Verdict};

use super::fault::{Flaw, RecordFault, TapeFault};
use super::record::{Record, read_front};

/// The longest tape, in bytes.
pub const MAX_TAPE: usize = 1_048_576;

/// A record and where its length begins on the tape.
#[derive(Clone, Copy, Debug, PartialEq, Eq)]
pub struct Placed<'a> {
    pub place: usize,
    pub record: Record<'a>,
}

/// Reads a tape record by record; the records' symbols are parts of the tape.
// Kept: each record and fault is told with its place, which the rest of the tape alone would not give.
#[derive(Drop)]
pub struct Reader<'a> {
    tape: &'a [u8],
    at: usize,
    last: u32,
}

impl<'a> Reader<'a> {
    /// A reader at the first record.
    pub fn start(tape: &'a [u8]) -> Result<Reader<'a>, TapeFault>
        ensures { Starts tape.now result }
    {
        if tape.len() > MAX_TAPE {
            return Err(TapeFault::TooLong);
        }
        let [1, ..] = tape else {
            return Err(TapeFault::Version);
        };
        Ok(Reader {
            tape,
            at: 1,
            last: 0,
        })
    }

    /// A reader of a tape's part: records side by side, with no version byte before them.
    pub fn part(bytes: &'a [u8]) -> Reader<'a>
        ensures bytes { result.tape.now ≡ bytes.now }
        ensures place { result.at ≡ 0 }
        ensures time { result.last ≡ 0 }
    {
        Reader {
            tape: bytes,
            at: 0,
            last: 0,
        }
    }

    // The record at the reader's place, which is before the tape's end.
    fn front_record(&self) -> Result<Record<'a>, Flaw>
        requires { self.now.at < length self.now.tape.now }
        ensures gives { plainly_at self.now.at result ≡ timely self.now.at self.now.last (front (drop self.now.at self.now.tape.now)) }
        ensures within { IfOk result (λ x. self.now.at + size_of (plain x) ≤ length self.now.tape.now) }
    {
        let record = read_front(&self.tape[self.at..])?;
        if record.time() < self.last {
            return Err(Flaw::Backward);
        }
        Ok(record)
    }

    /// The next record, or none at the tape's end. A refusal leaves the reader where it was.
    // Kept: an iterator would give that refusal for ever, so callers loop.
    pub fn next(&mut self) -> Result<Option<Placed<'a>>, TapeFault>
        ensures gives { told result ≡ step (drop self.old.at self.old.tape.now) self.old.at self.old.last }
        ensures place { self.new.at ≡ place_after (told result) self.old.at }
        ensures time { self.new.last ≡ time_after (told result) self.old.last }
        ensures same { self.new.tape.now ≡ self.old.tape.now }
    {
        let place = self.at;
        if place >= self.tape.len() {
            return Ok(None);
        }
        let record = self
            .front_record()
            .map_err(|flaw| RecordFault { place, flaw })?;
        self.at = place + record.size();
        self.last = record.time();
        Ok(Some(Placed { place, record }))
    }
}

/// How many records a sound tape has, or the first fault.
pub fn check(tape: &[u8]) -> Result<usize, TapeFault>
    ensures counts { refusing tape_refusal result ≡ count 0 (parse tape.now) }
    ensures means { Verdict tape.now result }
{
    let mut reader = Reader::start(tape)?;
    let mut records: usize = 0;
    while let Some(_) = reader.next()? {
        records += 1;
    }
    Ok(records)
}
