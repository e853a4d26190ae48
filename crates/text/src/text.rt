ghost use Rattle.std.specs.Prelude.{◌≡◌, ℕ, ◌+◌, ◌<◌, ◌≤◌, [], length, MatchResult};
ghost use Rattle.text.specs.Numerals.{Cut};
ghost use Rattle.text.specs.Texts.{whole, NoLine};
ghost use Rattle.text.specs.Files.{TooLong, LeftOver};

use crate::fields::cut;
use rules::{Fault, Refusal};
use std::marker::Model;

/// How many bytes a text may have.
pub const MOST_BYTES: usize = 65_536;

/// A text of at most 65,536 bytes that is read line by line: what is left of it, and how many of its lines were read.
#[derive(Drop)]
pub struct Text<'a> {
    line: u32,
    rest: &'a [u8],
}

impl<'a> Model for Text<'a> {
    ghost use Rattle.std.specs.Prelude.{◌+◌, ◌≤◌, length};
    ghost use Rattle.text.specs.Texts.{Text as Reading, reading};

    ghost Value = { Reading };

    ghost view = { λ t. reading t.line t.rest.now };

    ghost invariant = { λ t. t.line + length t.rest.now ≤ 65536 };
}

impl<'a> Text<'a> {
    /// A text of which no line was read; a fault of line 1 where there are more than 65,536 bytes.
    pub fn of(bytes: &'a [u8]) -> Result<Text<'a>, Fault>
        ensures { MatchResult result (λ t. (length bytes.now ≤ 65536) × (t ≡ whole bytes.now)) (TooLong bytes.now) }
    {
        if bytes.len() > MOST_BYTES {
            return Err(Fault {
                line: 1,
                refusal: Refusal::WrongCount,
            });
        }
        Ok(Text {
            line: 0,
            rest: bytes,
        })
    }

    /// Whether all lines were read; a line left over is a fault of its own.
    pub fn end(&self) -> Result<(), Fault>
        ensures { MatchResult result (λ _. self.now.rest ≡ []) (LeftOver self.now.line self.now.rest) }
    {
        if self.rest.is_empty() {
            return Ok(());
        }
        Err(Fault {
            line: self.line + 1,
            refusal: Refusal::WrongCount,
        })
    }

    // The next line, without its line feed.
    pub(crate) fn next_line(&mut self) -> Result<&'a [u8], Fault>
        ensures { MatchResult result
            (λ line. Cut 10 self.old.rest line.now self.new.rest × (self.new.line ≡ self.old.line + 1))
            (λ f. NoLine self.old.rest f.refusal × (f.line ≡ self.old.line + 1)) }
    {
        let due = self.line + 1;
        let Some((line, rest)) = cut(self.rest, b'\n') else {
            let refusal = if self.rest.is_empty() {
                Refusal::WrongCount
            } else {
                Refusal::MalformedLine
            };
            return Err(Fault { line: due, refusal });
        };
        self.line = due;
        self.rest = rest;
        Ok(line)
    }

    // The number of the line read last, counted from 1.
    pub(crate) fn number(&self) -> u32
        ensures { result ≡ self.now.line }
    {
        self.line
    }

    // A fault of the line read last.
    pub(crate) fn fault(&self, refusal: Refusal) -> Fault
        ensures line { result.line ≡ self.now.line }
        ensures refusal { result.refusal ≡ refusal }
    {
        Fault {
            line: self.line,
            refusal,
        }
    }
}
