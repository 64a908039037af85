ghost use Rattle.std.specs.Prelude.{◌≡◌, length, is_ok, if◌then◌else◌};
ghost use Rattle.tape.specs.Codes.{refusing};
ghost use Rattle.tape.specs.Reading.{parse};
ghost use Rattle.tape_laws.specs.Copying.{copy_refusal, copied, WritesBack};
ghost use Rattle.tape_laws.specs.Keeping.{overlaid};
ghost use Rattle.tape_laws.specs.declared.copy.CopyFault.TheVariants.{Tape, Write};

use tape::fault::{TapeFault, WriteFault};
use tape::reader::{Reader, check};
use tape::writer::Writer;

/// Why a tape was not copied.
#[derive(Clone, Copy, Debug, PartialEq, Eq)]
pub enum CopyFault {
    Tape(TapeFault),
    Write(WriteFault),
}

// Kept: a derived From has no contract, and contracts here name the variant.
impl From<TapeFault> for CopyFault {
    ghost from_gives = { λ e r. r ≡ Tape e };

    fn from(fault: TapeFault) -> CopyFault {
        CopyFault::Tape(fault)
    }
}

// Kept: a derived From has no contract, and contracts here name the variant.
impl From<WriteFault> for CopyFault {
    ghost from_gives = { λ e r. r ≡ Write e };

    fn from(fault: WriteFault) -> CopyFault {
        CopyFault::Write(fault)
    }
}

/// Writes a sound tape's records anew, in the front of a buffer, and answers how many bytes they take.
/// A tape that is not sound, or is longer than the buffer, leaves the buffer as it was.
pub fn copy_tape(tape: &[u8], buffer: &mut [u8]) -> Result<usize, CopyFault>
    ensures gives { refusing copy_refusal result ≡ copied (length tape.now) (length buffer.old) (parse tape.now) }
    ensures bytes { buffer.new ≡ (if is_ok result then overlaid tape.now buffer.old else buffer.old) }
    ensures writes { WritesBack tape.now (length buffer.old) }
{
    check(tape)?;
    if buffer.len() < tape.len() {
        return Err(WriteFault::Full.into());
    }
    let mut reader = Reader::start(tape)?;
    let mut writer = Writer::start(buffer);
    while let Some(placed) = reader.next()? {
        writer.append(&placed.record)?;
    }
    Ok(writer.end().place())
}
