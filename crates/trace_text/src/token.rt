//! The tokens of a trace text.
ghost use Rattle.std.specs.Prelude.{◌≡◌, ◌<◌, ◌^◌, length};
ghost use Rattle.std.specs.List.{prefix_len};
ghost use Rattle.std.specs.Char.{is_ascii_digit};

/// What stands in a text: a sign, a whole run of digits, a space, or any other byte.
#[derive(Clone, Copy)]
pub(crate) enum Token<'a> {
    Sign(&'a [u8]),
    Digits(&'a [u8]),
    Space,
    Other,
}

/// A token, and the place of its first byte.
#[derive(Clone, Copy)]
pub(crate) struct Mark<'a> {
    pub token: Token<'a>,
    pub place: usize,
}

/// The marks of a text, from a place on.
// the whole text and a place, and not what is left of it: faults name places
#[derive(Drop)]
pub(crate) struct Marks<'a> {
    text: &'a [u8],
    pub place: usize,
    ghost fits: { length text.now < 2 ^ 64 },
}

/// How many digits a text begins with.
fn leading_digits(text: &[u8]) -> usize
    ensures { result ≡ prefix_len is_ascii_digit text.now }
{
    text.iter().take_while(|byte| byte.is_ascii_digit()).count()
}

impl<'a> Token<'a> {
    ghost use Rattle.trace_text.specs.Tokens.{size_of, Tokened};

    /// The token that a text begins with.
    fn first(text: &'a [u8]) -> Option<Self>
        ensures { Tokened text.now result }
    {
        match *text.first()? {
            b'+' | b'-' => Some(Token::Sign(&text[..1])),
            b' ' => Some(Token::Space),
            b'0'..=b'9' => Some(Token::Digits(&text[..leading_digits(text)])),
            _ => Some(Token::Other),
        }
    }

    /// How many bytes it has.
    fn size(self) -> usize
        ensures { result ≡ size_of self.entry }
    {
        match self {
            Token::Sign(part) | Token::Digits(part) => part.len(),
            Token::Space | Token::Other => 1,
        }
    }
}

impl<'a> Marks<'a> {
    /// The marks of a whole text.
    pub(crate) fn new(text: &'a [u8]) -> Self
        ensures text { result.text.now ≡ text.now }
        ensures place { result.place ≡ 0 }
    {
        Marks { text, place: 0 }
    }
}

impl<'a> Iterator for Marks<'a> {
    ghost use Rattle.trace_text.specs.Tokens.{GivesMark, bytes_left};

    type Item = Mark<'a>;

    ghost next_gives = { GivesMark };

    ghost remaining = { bytes_left };

    fn next(&mut self) -> Option<Mark<'a>> {
        let place = self.place;
        let token = Token::first(self.text.get(place..)?)?;
        self.place += token.size();
        Some(Mark { token, place })
    }
}
