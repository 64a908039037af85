// Bytes as text, two hex digits each, and a dash where there are none.
ghost use Rattle.std.specs.Prelude.{◌≡◌, ◌<◌, IfOk, Some, vec_items};
ghost use Rattle.std.specs.Option.{option_map};
ghost use Rattle.words.specs.Forms.{first_pair};
ghost use Rattle.words.specs.HexText.{bytes_text, hex_byte, hex_digit, hex_value, pair_text, pairs, read_bytes};
ghost use Rattle.words.specs.HexForms.{pairs_by_forms};

use crate::forms::{Form, read_row, write_row};
use std::alloc::{AllocError, Global};
use std::fmt;

// Displayed in upper case.
#[derive(Clone, Copy, Debug, PartialEq, Eq)]
pub struct HexBytes<'a>(pub &'a [u8]);

impl fmt::Display for HexBytes<'_> {
    ghost output = { λ s. Some (bytes_text s.0.now) };

    fn fmt<W: fmt::Write>(&self, f: &mut fmt::Formatter<W>) -> fmt::Result {
        write_row::<HexPair, W>(f, self.0)
    }
}

// Digits of either case; `None` where the word is no bytes.
pub fn read_bytes(heap: Global, word: &str) -> Result<Option<Vec<u8>>, AllocError>
    ensures { IfOk result (λ o. option_map vec_items o ≡ read_bytes word.now) }
{
    read_row::<HexPair>(heap, word)
}

pub(crate) struct HexPair;

impl Form for HexPair {
    ghost form = { pair_text };

    ghost first = { first_pair };

    ghost all = { pairs };

    ghost reads = { pairs_by_forms };

    #[tactic(auto, using(std::proofs::lemmas::Str::encode_ascii))]
    fn write<W: fmt::Write>(f: &mut fmt::Formatter<W>, byte: u8) -> fmt::Result {
        let high = hex_digit(byte / 16);
        let low = hex_digit(byte % 16);
        write!(f, "{high}{low}")
    }

    fn read_first(text: &[u8]) -> Option<(u8, &[u8])> {
        let [high, low, rest @ ..] = text else {
            return None;
        };
        Some((hex_byte(*high, *low)?, rest))
    }
}

// Kept: printed by `{:02X}`, a row of bytes takes twice the time.
fn hex_digit(value: u8) -> char
    requires { value < 16 }
    ensures { result ≡ hex_digit value }
{
    if value < 10 {
        (b'0' + value) as char
    } else {
        (b'A' - 10 + value) as char
    }
}

fn hex_byte(high: u8, low: u8) -> Option<u8>
    ensures { result ≡ hex_byte (hex_value high) (hex_value low) }
{
    let high = (high as char).to_digit(16)?;
    let low = (low as char).to_digit(16)?;
    u8::try_from(high * 16 + low).ok()
}
