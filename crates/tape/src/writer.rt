ghost use Rattle.std.specs.Prelude.{◌≡◌, ◌+◌, ◌≤◌, length, is_ok, if◌then◌else◌, slice_set};
ghost use Rattle.tape.specs.Codes.{refusing, flaw_at, write_refusal};
ghost use Rattle.tape.specs.Format.{plain, symbol_of, size_of, head, encode};
ghost use Rattle.tape.specs.Writing.{splice, fitness, answer, opening, end_after};

use super::fault::{Flaw, RecordFault, WriteFault};
use super::reader::MAX_TAPE;
use super::record::{Fields, HEADER, Record};

/// Where a tape's next record begins, and the time that it may not precede.
#[derive(Clone, Copy, Debug, PartialEq, Eq)]
pub struct End {
    place: usize,
    time: u32,
}

/// Writes a tape into the caller's buffer.
// Kept: the buffer is lent and no heap is used, so the tape's end stands beside it.
#[derive(Drop)]
pub struct Writer<'a> {
    buffer: &'a mut [u8],
    end: End,
}

// Writes bytes over the buffer from a place on.
fn put(buffer: &mut [u8], at: usize, bytes: &[u8])
    requires { at + length bytes.now ≤ length buffer.old }
    ensures { buffer.new ≡ splice at bytes.now buffer.old }
{
    buffer[at..at + bytes.len()].copy_from_slice(bytes);
}

fn head_of(record: &Record) -> [u8; HEADER]
    requires { length (symbol_of (plain «record».now)) ≤ 12 }
    ensures { result ≡ head (plain «record».now) }
{
    let Fields {
        kind,
        time,
        first,
        second,
        symbol,
    } = record.fields();
    let len = 13 + symbol.len() as u16;
    let [l0, l1] = len.to_be_bytes();
    let [t0, t1, t2, t3] = time.to_be_bytes();
    let [a0, a1, a2, a3] = first.to_be_bytes();
    let [b0, b1, b2, b3] = second.to_be_bytes();
    [
        l0, l1, kind as u8, t0, t1, t2, t3, a0, a1, a2, a3, b0, b1, b2, b3,
    ]
}

fn put_record(buffer: &mut [u8], at: usize, item: &Record)
    requires item_len_bound { length (symbol_of (plain item.now)) ≤ 12 }
    requires item_in_bounds { at + size_of (plain item.now) ≤ length buffer.old }
    ensures { buffer.new ≡ splice at (encode (plain item.now)) buffer.old }
{
    let head = head_of(item);
    put(buffer, at, &head);
    put(buffer, at + HEADER, item.symbol());
}

impl End {
    /// How many bytes the tape has: its next record begins behind them.
    pub fn place(&self) -> usize
        ensures { result ≡ self.now.place }
    {
        self.place
    }

    // Whether a record may stand there.
    fn takes(&self, item: &Record) -> Result<(), Flaw>
        ensures { refusing (flaw_at self.now.place) result ≡ fitness self.now.place self.now.time (plain item.now) }
    {
        if !item.symbol_holds() {
            return Err(Flaw::Length);
        }
        if !item.fields_hold() {
            return Err(Flaw::Field);
        }
        if item.time() < self.time {
            return Err(Flaw::Backward);
        }
        Ok(())
    }
}

impl<'a> Writer<'a> {
    /// A writer of a new tape: the version byte is written where the buffer has a place for it.
    pub fn start(buffer: &'a mut [u8]) -> Writer<'a>
        ensures bytes { result.buffer.now ≡ slice_set buffer.old 0 1 }
        ensures lender { result.buffer.ghost_name ≡ buffer.entry.ghost_name }
        ensures place { result.end.place ≡ 1 }
        ensures time { result.end.time ≡ 0 }
    {
        if !buffer.is_empty() {
            buffer[0] = 1;
        }
        Writer {
            buffer,
            end: End { place: 1, time: 0 },
        }
    }

    /// A writer that goes on with a tape from its end.
    pub fn resume(buffer: &'a mut [u8], end: End) -> Writer<'a>
        ensures bytes { result.buffer.now ≡ buffer.old }
        ensures lender { result.buffer.ghost_name ≡ buffer.entry.ghost_name }
        ensures same { result.end ≡ end }
    {
        Writer { buffer, end }
    }

    /// Whether the version byte had a place.
    pub fn started(&self) -> Result<(), WriteFault>
        ensures { refusing write_refusal result ≡ opening (length self.now.buffer.now) }
    {
        if self.buffer.is_empty() {
            return Err(WriteFault::Full);
        }
        Ok(())
    }

    /// The tape's end, to go on from by `resume`.
    pub fn end(&self) -> End
        ensures { result ≡ self.now.end }
    {
        self.end // a copy
    }

    /// One record more, or a refusal that leaves the buffer and the end as they were.
    pub fn append(&mut self, item: &Record) -> Result<(), WriteFault>
        ensures lender { self.new.buffer.ghost_name ≡ self.old.buffer.ghost_name }
        ensures gives { refusing write_refusal result ≡ answer (length self.old.buffer.now) self.old.end.place self.old.end.time (plain item.now) }
        ensures bytes { self.new.buffer.now ≡ (if is_ok result then splice self.old.end.place (encode (plain item.now)) self.old.buffer.now else self.old.buffer.now) }
        ensures end { self.new.end ≡ (if is_ok result then end_after self.old.end (plain item.now) else self.old.end) }
    {
        let end = self.end;
        let place = end.place;
        end.takes(item).map_err(|flaw| RecordFault { place, flaw })?;
        let size = item.size();
        let room = self.buffer.len().min(MAX_TAPE);
        if place > room || room - place < size {
            return Err(WriteFault::Full);
        }
        put_record(self.buffer, place, item);
        self.end = End {
            place: place + size,
            time: item.time(),
        };
        Ok(())
    }
}
