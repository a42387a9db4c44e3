ghost use Rattle.std.specs.Prelude.{◌≡◌, ◌+◌, ◌*◌, ◌^◌, ◌<◌, length};
ghost use Rattle.ls_reader.specs.Places.{span_at, start, after, after_all};

use crate::datum::Span;

/// A place in a text: the bytes before it, its line and its column.
#[derive(Clone, Copy, Debug, PartialEq, Eq)]
pub(crate) struct Place {
    pub byte: u32,
    pub line: u32,
    pub column: u32,
}

impl Place {
    pub fn start() -> Place
        ensures { result ≡ start }
    {
        Place {
            byte: 0,
            line: 1,
            column: 1,
        }
    }

    /// The empty span at the place.
    pub fn span(self) -> Span
        ensures { result ≡ span_at self }
    {
        Span {
            start: self.byte,
            end: self.byte,
            line: self.line,
            column: self.column,
        }
    }

    fn after(self, c: char) -> Place
        requires byte { self.byte + 4 < 2 ^ 32 }
        requires line { self.line + 1 < 2 ^ 32 }
        requires column { self.column + 1 < 2 ^ 32 }
        ensures { result ≡ after self c }
    {
        let byte = self.byte + c.len_utf8() as u32;
        if c == '\n' {
            Place {
                byte,
                line: self.line + 1,
                column: 1,
            }
        } else {
            Place {
                byte,
                line: self.line,
                column: self.column + 1,
            }
        }
    }

    /// The place behind a text.
    pub fn after_all(self, text: &[char]) -> Place
        requires byte { self.byte + 4 * length text.now < 2 ^ 32 }
        requires line { self.line + length text.now < 2 ^ 32 }
        requires column { self.column + length text.now < 2 ^ 32 }
        ensures { result ≡ after_all self text.now }
    {
        let mut place = self;
        for c in text {
            place = place.after(*c);
        }
        place
    }
}
