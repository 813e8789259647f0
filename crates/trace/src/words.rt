//! The words of a line, read one after another.
ghost use Rattle.std.specs.Prelude.{◌≡◌, Ok, Err, MatchResult};
ghost use Rattle.std.specs.Iterator.{YieldsFirstRef, item_count};
ghost use Rattle.std.specs.Str.{bytes_eq};
ghost use Rattle.trace.specs.Lines.{Split, words_of, passed_over};
ghost use Rattle.trace.specs.Readers.{left, Gives, GivesBy, reads_word, reads_number, reads_this, reads_end};

use crate::number::{Unsigned, number};
use crate::reason::Reason;

/// The one byte that parts words.
const SPACE: u8 = b' ';

/// Whether `line` holds no command: it is empty, has spaces alone, or begins with `#`.
pub(crate) fn is_passed_over(line: &[u8]) -> bool
    ensures { result ≡ passed_over line.now }
{
    line.starts_with(b"#") || line.iter().all(|b| *b == SPACE)
}

/// The words of a line that are left to read.
#[derive(Drop)]
pub struct Words<'a> {
    rest: &'a [u8],
}

impl<'a> Iterator for Words<'a> {
    type Item = &'a [u8];

    ghost next_gives = { YieldsFirstRef left };

    ghost remaining = { item_count left };

    fn next(&mut self) -> Option<&'a [u8]> {
        let start = self.rest.iter().position(|b| *b != SPACE)?;
        let line = &self.rest[start..];
        let end = line.iter().position(|b| *b == SPACE).unwrap_or(line.len());
        let (word, rest) = line.split_at(end);
        self.rest = rest;
        Some(word)
    }
}

impl<'a> Words<'a> {
    /// All the words of `line`.
    pub(crate) fn new(line: &'a [u8]) -> Words<'a>
        ensures words { left result ≡ words_of line.now }
        ensures pieces { Split 32 line.now }
    {
        Words { rest: line }
    }

    /// Takes the next word, and there has to be one.
    pub(crate) fn word(&mut self) -> Result<&'a [u8], Reason>
        ensures { MatchResult result (λ w. reads_word (left self.old) ≡ Ok (w.now, left self.new)) (λ e. reads_word (left self.old) ≡ Err e) }
    {
        self.next().ok_or(Reason::TooFewWords)
    }

    /// Takes the next word as a number.
    pub(crate) fn number<N: Unsigned>(&mut self) -> Result<N, Reason>
        ensures { GivesBy N.value (reads_number N.bits) self.old result self.new }
    {
        number(self.word()?)
    }

    /// Takes the next word, which has to be `word`.
    pub(crate) fn expect(&mut self, word: &[u8]) -> Result<(), Reason>
        ensures { Gives (reads_this word.now) self.old result self.new }
    {
        if self.word()? == word {
            Ok(())
        } else {
            Err(Reason::UnknownWord)
        }
    }

    /// Checks that no word is left.
    pub(crate) fn end(&mut self) -> Result<(), Reason>
        ensures { Gives reads_end self.old result self.new }
    {
        match self.next() {
            Some(_) => Err(Reason::TooManyWords),
            None => Ok(()),
        }
    }
}
