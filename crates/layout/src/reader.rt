// An expression reader: it holds the line's slice and its place.
ghost use Rattle.std.specs.Prelude.{◌≡◌};
ghost use Rattle.layout.specs.Code.Tokens.{TokenFrom};

use crate::tokens::{Token, token_at};

// What is read, from which place on, and whether with one space for each run of white space.
#[derive(Clone, Copy)]
pub struct ExprReader<'a> {
    pub src: &'a [u8],
    pub at: usize,
    pub one_space: bool,
}

impl<'a> ExprReader<'a> {
    pub fn new(src: &'a [u8], one_space: bool) -> ExprReader<'a>
        ensures { result ≡ record { src = src.entry; at = 0; one_space = one_space } }
    {
        ExprReader {
            src,
            at: 0,
            one_space,
        }
    }

    // The same at another place.
    pub fn moved(self, at: usize) -> ExprReader<'a>
        ensures { result ≡ record { src = self.entry.src; at = at; one_space = self.entry.one_space } }
    {
        ExprReader {
            src: self.src,
            at,
            one_space: self.one_space,
        }
    }

    pub fn next_token(self) -> Option<(Token, usize)>
        ensures { TokenFrom self.entry.one_space self.entry.src.now self.entry.at result }
    {
        token_at(self.src, self.at, self.one_space)
    }
}

// The next token from a place on, for callers that hold a slice and a place and no reader.
pub fn token_of(s: &[u8], at: usize, one_space: bool) -> Option<(Token, usize)>
    ensures { TokenFrom one_space s.now at result }
{
    ExprReader::new(s, one_space).moved(at).next_token()
}
