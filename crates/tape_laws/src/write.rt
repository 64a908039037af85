ghost use Rattle.std.specs.Prelude.{map};
ghost use Rattle.tape.specs.Format.{plain};
ghost use Rattle.tape_laws.specs.Keeping.{Keeps};

use tape::fault::WriteFault;
use tape::record::Record;
use tape::writer::Writer;

/// A tape in a buffer: how many bytes and how many records it has.
#[derive(Clone, Copy, Debug, PartialEq, Eq)]
pub struct Written {
    pub bytes: usize,
    pub records: usize,
}

/// Starts a tape and offers it each record in turn; those that it refuses are left out.
pub fn write_tape(buffer: &mut [u8], items: &[Record]) -> Result<Written, WriteFault>
    ensures { Keeps buffer.old buffer.new (map plain items.now) result }
{
    let mut writer = Writer::start(buffer);
    writer.started()?;
    let mut records: usize = 0;
    // Kept: as the count of a filter, the writes would hide in its test.
    for item in items {
        records += usize::from(writer.append(item).is_ok());
    }
    let bytes = writer.end().place();
    Ok(Written { bytes, records })
}
