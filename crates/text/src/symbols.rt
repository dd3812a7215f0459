//! The symbols of letters.
ghost use Rattle.std.specs.Prelude.{◌≡◌};
ghost use Rattle.text.specs.Symbols.{letter, is_symbol, SymbolsOfLetters};

/// Whether a byte is the symbol of a letter.
// not by `is_ascii_hexdigit`: an upper case letter is none
#[tactic(auto, using(crate::proofs::Letters::symbols_of_letters))]
pub fn is_symbol(byte: u8) -> bool
    ensures value { result ≡ is_symbol byte }
    ensures symbols { SymbolsOfLetters }
{
    matches!(byte, b'0'..=b'9' | b'a'..=b'f')
}

/// The letter of a symbol. Which bytes are symbols says `is_symbol`.
#[tactic(auto, using(crate::proofs::Letters::symbols_of_letters))]
pub fn letter_of(symbol: u8) -> u8
    ensures value { result ≡ letter symbol }
    ensures symbols { SymbolsOfLetters }
{
    if symbol <= b'9' {
        symbol.saturating_sub(b'0')
    } else {
        symbol.saturating_sub(b'a' - 10)
    }
}
