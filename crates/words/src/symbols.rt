// Symbols as text: a byte as itself or as `\xHH`, and a dash for the empty symbol.
ghost use Rattle.std.specs.Prelude.{◌≡◌, IfOk, Some, vec_items};
ghost use Rattle.std.specs.Option.{option_map};
ghost use Rattle.words.specs.SymbolText.{all_forms, first_form, form, is_plain, read_symbol, symbol_text};
ghost use Rattle.words.specs.SymbolForms.{symbols_by_forms};

use crate::forms::{Form, read_row, write_row};
use crate::hex::HexPair;
use std::alloc::{AllocError, Global};
use std::fmt;

#[derive(Clone, Copy, Debug, PartialEq, Eq)]
pub struct Symbol<'a>(pub &'a [u8]);

impl fmt::Display for Symbol<'_> {
    ghost output = { λ s. Some (symbol_text s.0.now) };

    fn fmt<W: fmt::Write>(&self, f: &mut fmt::Formatter<W>) -> fmt::Result {
        match self.0 {
            [b'-'] => f.write_str("\\x2D"),
            bytes => write_row::<SymbolForm, W>(f, bytes),
        }
    }
}

// `None` where the word is no symbol. A symbol may have any length here.
pub fn read_symbol(heap: Global, word: &str) -> Result<Option<Vec<u8>>, AllocError>
    ensures { IfOk result (λ o. option_map vec_items o ≡ read_symbol word.now) }
{
    read_row::<SymbolForm>(heap, word)
}

struct SymbolForm;

impl Form for SymbolForm {
    ghost form = { form };

    ghost first = { first_form };

    ghost all = { all_forms };

    ghost reads = { symbols_by_forms };

    #[tactic(auto, using(std::proofs::lemmas::Str::encode_ascii))]
    fn write<W: fmt::Write>(f: &mut fmt::Formatter<W>, byte: u8) -> fmt::Result {
        if is_plain(byte) {
            return f.write_char(byte as char);
        }
        f.write_str("\\x")?;
        HexPair::write(f, byte)
    }

    fn read_first(text: &[u8]) -> Option<(u8, &[u8])> {
        match text {
            [b'\\', b'x', escaped @ ..] => HexPair::read_first(escaped),
            [byte, rest @ ..] if is_plain(*byte) => Some((*byte, rest)),
            _ => None,
        }
    }
}

// Visible ASCII but the backslash stands for itself.
fn is_plain(byte: u8) -> bool
    ensures { result ≡ is_plain byte }
{
    byte.is_ascii_graphic() && byte != b'\\'
}
