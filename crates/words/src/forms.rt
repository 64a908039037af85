// Rows of bytes as text: the form of each byte, one after another, and a dash where there are none.
ghost use Rattle.std.specs.Prelude.{◌≡◌, ℕ, List, IfOk, Option, vec_items};
ghost use Rattle.std.specs.Option.{option_map};
ghost use Rattle.std.specs.Fmt.{WritesOnOk};
ghost use Rattle.words.specs.Forms.{ReadsByForms, read_row, row_text};

use std::alloc::{AllocError, Global};
use std::fmt;

// How a byte is written.
pub(crate) trait Form {
    ghost form: { ℕ → List ℕ };

    // The byte that the first form of a text writes, and the text after that form.
    ghost first: { List ℕ → Option (ℕ × List ℕ) };

    // The bytes that a whole text writes.
    ghost all: { List ℕ → Option (List ℕ) };

    fn write<W: fmt::Write>(f: &mut fmt::Formatter<W>, byte: u8) -> fmt::Result
        ensures { WritesOnOk W.write_str_gives f.old result (form byte) f.new };

    fn read_first(text: &[u8]) -> Option<(u8, &[u8])>
        ensures { option_map (λ p. (p.0, p.1.now)) result ≡ first text.now };

    ghost reads: { ReadsByForms first all };
}

pub(crate) fn write_row<F: Form, W: fmt::Write>(
    f: &mut fmt::Formatter<W>,
    bytes: &[u8],
) -> fmt::Result
    ensures { WritesOnOk W.write_str_gives f.old result (row_text F.form bytes.now) f.new }
{
    if bytes.is_empty() {
        return f.write_str("-");
    }
    for byte in bytes {
        F::write(f, *byte)?;
    }
    Ok(())
}

// `None` where the word is no row.
pub(crate) fn read_row<F: Form>(heap: Global, word: &str) -> Result<Option<Vec<u8>>, AllocError>
    ensures { IfOk result (λ o. option_map vec_items o ≡ read_row F.all word.now) }
{
    match word {
        "" => Ok(None),
        "-" => Ok(Some(Vec::new(heap))),
        forms => read_forms::<F>(heap, forms.as_bytes()),
    }
}

fn read_forms<F: Form>(heap: Global, text: &[u8]) -> Result<Option<Vec<u8>>, AllocError>
    ensures { IfOk result (λ o. option_map vec_items o ≡ F.all text.now) }
{
    let mut bytes = Vec::new(heap);
    let mut rest = text;
    while let Some((byte, after)) = F::read_first(rest) {
        bytes.push(byte)?;
        rest = after;
    }
    Ok(rest.is_empty().then_some(bytes))
}
