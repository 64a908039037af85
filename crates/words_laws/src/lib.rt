// What is printed reads back: each call prints a value and reads the text again.
#![tactic(auto)]

ghost use Rattle.std.specs.Prelude.{◌≡◌, IfOk, IfSome, Ok, Some, vec_items};
ghost use Rattle.std.specs.Fn.{FnOnceReturnsAt};
ghost use Rattle.std.specs.Option.{option_map};
ghost use Rattle.words_laws.specs.Examples.{Examples};
ghost use Rattle.words_laws.specs.Laws.{BytesReread, PricesReread, RefusalsReread, SymbolsReread};

use std::alloc::{AllocError, Global};
use std::fmt::Display;
use words::{HexBytes, Price, Refusal, Symbol, read_bytes, read_symbol};

pub fn reread_price(heap: Global, price: Price) -> Result<Option<Price>, AllocError>
    ensures same { IfOk result (λ o. o ≡ Some price) }
    ensures law { PricesReread }
    ensures examples { Examples }
{
    reread(heap, &price, |text| Ok(text.parse().ok()))
}

pub fn reread_symbol(heap: Global, symbol: &[u8]) -> Result<Option<Vec<u8>>, AllocError>
    ensures same { IfOk result (λ o. option_map vec_items o ≡ Some symbol.now) }
    ensures law { SymbolsReread }
{
    reread(heap, &Symbol(symbol), |text| read_symbol(heap, text))
}

pub fn reread_bytes(heap: Global, bytes: &[u8]) -> Result<Option<Vec<u8>>, AllocError>
    ensures same { IfOk result (λ o. option_map vec_items o ≡ Some bytes.now) }
    ensures law { BytesReread }
{
    reread(heap, &HexBytes(bytes), |text| read_bytes(heap, text))
}

pub fn reread_refusal(heap: Global, refusal: Refusal) -> Result<Option<Refusal>, AllocError>
    ensures same { IfOk result (λ o. o ≡ Some refusal) }
    ensures law { RefusalsReread }
{
    reread(heap, &refusal, |text| Ok(text.parse().ok()))
}

// What `read` gives of the value's text.
fn reread<T: Display, R, F: FnOnce(&str) -> Result<Option<R>, AllocError>>(
    heap: Global,
    value: &T,
    read: F,
) -> Result<Option<R>, AllocError>
    requires { F.IsAlwaysCallable read }
    ensures { IfOk result (λ o. IfSome (T.output value.now) (λ text. FnOnceReturnsAt F.FnOnce read text (Ok o))) }
{
    let text = format!(in heap; "{value}")?;
    read(text.as_str())
}
