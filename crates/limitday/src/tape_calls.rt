// Tapes: taken, listed and written.
use super::line::{Line, NoAnswer};
use super::session::Session;
use super::shown::ShownRecord;
use std::alloc::Global;
use std::fs;
use std::io::Write;
use tape::fault::WriteFault;
use tape::reader::{MAX_TAPE, Reader, check};
use tape::record::Record;
use tape::writer::{End, Writer};
use words::HexBytes;

// A tape that is being written.
// Kept: the library's writer has no heap, so it is lent the buffer and takes up its end at each call.
#[derive(Drop)]
pub struct Started {
    buffer: Vec<u8>,
    end: End,
}

impl Started {
    // Bytes past the longest tape are never written, so the buffer has none.
    fn new(heap: Global, capacity: u32) -> Result<Started, NoAnswer> {
        let mut buffer = vec![in heap; 0; MAX_TAPE.min(capacity as usize)]?;
        let writer = Writer::start(&mut buffer);
        writer.started()?;
        let end = writer.end();
        Ok(Started { buffer, end })
    }

    fn append(&mut self, record: &Record<'_>) -> Result<(), WriteFault> {
        let mut writer = Writer::resume(&mut self.buffer, self.end);
        writer.append(record)?;
        self.end = writer.end();
        Ok(())
    }

    fn bytes(&self) -> &[u8] {
        self.buffer
            .as_slice()
            .get(0..self.end.place())
            .unwrap_or(&[])
    }
}

impl Session {
    pub(super) fn current_tape(&self) -> Result<&[u8], NoAnswer> {
        let tape = self.tape.as_ref().ok_or(NoAnswer::Before("a tape"))?;
        Ok(tape.as_slice())
    }

    pub(super) fn take_tape<W: Write>(
        &mut self,
        line: &mut Line<'_, W>,
        bytes: Vec<u8>,
    ) -> Result<(), NoAnswer> {
        let long = bytes.len();
        let checked = check(bytes.as_slice());
        self.tape = Some(bytes);
        let records = checked?;
        Ok(line.tell(format_args!("tape {long} bytes {records} records"))?)
    }

    // A file that cannot be read is told on standard error too, and leaves the tape as it was.
    pub(super) fn take_file<W: Write>(
        &mut self,
        rt: &HostRuntime,
        line: &mut Line<'_, W>,
        path: &str,
    ) -> Result<(), NoAnswer> {
        match fs::read(rt, path) {
            Ok(bytes) => self.take_tape(line, bytes),
            Err(error) => {
                eprintln!(rt; "limitday: {path}: {error}")?;
                Err(NoAnswer::Expected("a file that can be read"))
            }
        }
    }

    pub(super) fn list_records<W: Write>(&self, line: &mut Line<'_, W>) -> Result<(), NoAnswer> {
        let tape = self.current_tape()?;
        if check(tape)? == 0 {
            return Ok(line.tell("no records")?);
        }
        let mut reader = Reader::start(tape)?;
        while let Some(placed) = reader.next()? {
            line.tell(ShownRecord(placed))?;
        }
        Ok(())
    }

    pub(super) fn start<W: Write>(
        &mut self,
        line: &mut Line<'_, W>,
        capacity: u32,
    ) -> Result<(), NoAnswer> {
        self.started = None;
        let started = Started::new(self.heap, capacity)?;
        let long = started.end.place();
        self.started = Some(started);
        Ok(line.tell(format_args!("started {long} bytes"))?)
    }

    pub(super) fn write<W: Write>(
        &mut self,
        line: &mut Line<'_, W>,
        record: Record<'_>,
    ) -> Result<(), NoAnswer> {
        let started = self
            .started
            .as_mut()
            .ok_or(NoAnswer::Before("a started tape"))?;
        started.append(&record)?;
        let long = started.end.place();
        Ok(line.tell(format_args!("written {long} bytes"))?)
    }

    pub(super) fn finish<W: Write>(&mut self, line: &mut Line<'_, W>) -> Result<(), NoAnswer> {
        let started = self
            .started
            .as_ref()
            .ok_or(NoAnswer::Before("a started tape"))?;
        let bytes = started.bytes();
        let hex = HexBytes(bytes);
        line.tell(format_args!("bytes {hex}"))?;
        self.tape = Some(bytes.to_vec(self.heap)?);
        Ok(())
    }
}
