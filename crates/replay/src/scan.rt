// A line byte by byte: names and decimal numbers with blanks between.
ghost use Rattle.std.specs.Prelude.{◌<◌};

use crate::call::Call;
use crate::fault::Fault;
use crate::line::Line;
use std::str::from_utf8;

// No name is longer.
const LETTERS: usize = 8;

// The word that is not yet whole.
#[derive(Clone, Copy)]
enum Word {
    Nothing,
    Number(u64),
    // Letters, and how many.
    Name([u8; LETTERS], usize),
}

#[derive(Drop)]
pub struct Scan {
    word: Word,
    line: Line,
}

impl Scan {
    pub fn new() -> Scan {
        Scan {
            word: Word::Nothing,
            line: Line::new(),
        }
    }

    // The next line begins.
    pub fn clear(&mut self) {
        self.word = Word::Nothing;
        self.line.clear();
    }

    // The line's call, if it is known.
    pub fn call(&self) -> Option<Call> {
        self.line.call()
    }

    // Whether a line has begun that has not ended.
    pub fn is_inside(&self) -> bool {
        self.line.call().is_some() || !matches!(self.word, Word::Nothing)
    }

    // One byte more, but for a line's end.
    pub fn take(&mut self, byte: u8) -> Result<(), Fault> {
        match byte {
            b'0'..=b'9' => self.digit(byte - b'0'),
            b'a'..=b'z' => self.letter(byte),
            b' ' => self.end_word(),
            _ => Err(Fault::Byte),
        }
    }

    // The line, which is whole, and its call, if it has what that takes.
    pub fn end_line(&mut self) -> Result<(&Line, Call), Fault> {
        self.end_word()?;
        let call = self.line.call().ok_or(Fault::Name)?;
        if self.line.fits(call) {
            Ok((&self.line, call))
        } else {
            Err(Fault::Shape)
        }
    }

    // A number is at most 18446744073709551609, which is not the largest of its type: hence a test and no `checked_mul`.
    fn digit(&mut self, digit: u8) -> Result<(), Fault>
        requires { digit < 10 }
    {
        let n = match self.word {
            Word::Nothing => 0,
            Word::Number(n) => n,
            Word::Name(_, _) => return Err(Fault::Byte),
        };
        if u64::MAX / 10 <= n {
            return Err(Fault::Large);
        }
        self.word = Word::Number(10 * n + u64::from(digit));
        Ok(())
    }

    fn letter(&mut self, letter: u8) -> Result<(), Fault> {
        let (mut name, len) = match self.word {
            Word::Nothing => ([0; LETTERS], 0),
            Word::Number(_) => return Err(Fault::Byte),
            Word::Name(name, len) => (name, len),
        };
        if LETTERS <= len {
            return Err(Fault::Name);
        }
        name[len] = letter;
        self.word = Word::Name(name, len + 1);
        Ok(())
    }

    // A blank or the line's end: the word before it, if there is one, is whole.
    fn end_word(&mut self) -> Result<(), Fault> {
        let word = self.word;
        self.word = Word::Nothing;
        match word {
            Word::Nothing => Ok(()),
            Word::Number(n) => self.number(n),
            Word::Name(name, len) => self.name(name.get(..len).unwrap_or(&[])),
        }
    }

    fn number(&mut self, n: u64) -> Result<(), Fault> {
        if self.line.call().is_none() {
            return Err(Fault::Name);
        }
        self.line.push(n)
    }

    // The call's name comes first, and then those of parts.
    fn name(&mut self, name: &[u8]) -> Result<(), Fault> {
        let Ok(name) = from_utf8(name) else {
            return Err(Fault::Name);
        };
        if self.line.call().is_some() {
            return self.line.begin(name.parse()?);
        }
        self.line.name(name.parse()?);
        Ok(())
    }
}
