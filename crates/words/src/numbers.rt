// Whole numbers in decimal digits alone, with no sign.
ghost use Rattle.std.specs.Prelude.{◌≡◌, ◌^◌};
ghost use Rattle.words.specs.Numeral.{number_below};

// The number that a text of digits writes, if it fits 64 bits.
pub(crate) fn read_numeral(word: &str) -> Option<u64>
    ensures { result ≡ number_below (2 ^ 64) word.now }
{
    if word.starts_with('+') {
        return None;
    }
    word.parse::<u64>().ok()
}

// A number of 32 bits: digits alone.
pub fn read_number(word: &str) -> Option<u32>
    ensures { result ≡ number_below (2 ^ 32) word.now }
{
    u32::try_from(read_numeral(word)?).ok()
}
