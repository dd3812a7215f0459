//! The tokens of a bracket text.
ghost use Rattle.std.specs.Prelude.{◌≡◌, [], ◌∷◌};

/// What stands in a text: a bracket, a comma, the symbol of a letter, or any other byte.
#[derive(Clone, Copy)]
pub(crate) enum Token<'a> {
    Open,
    Comma,
    Close,
    Symbol(&'a [u8]),
    Other,
}

/// A token, and its place.
#[derive(Clone, Copy)]
pub(crate) struct Mark<'a> {
    pub token: Token<'a>,
    pub place: usize,
}

impl<'a> Token<'a> {
    ghost use Rattle.bracket_text.specs.Tokens.{Stands};

    /// What a character is that stands on a part of a text.
    pub(crate) fn of(c: char, part: &'a [u8]) -> Self
        requires { part.now ≡ c ∷ [] }
        ensures { Stands c result }
    {
        match c {
            '[' => Token::Open,
            ',' => Token::Comma,
            ']' => Token::Close,
            '0'..='9' | 'a'..='f' => Token::Symbol(part),
            _ => Token::Other,
        }
    }
}
