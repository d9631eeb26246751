// What the programs that try vectors say of a group: how many came out as they must.
#![tactic(auto)]

ghost use Rattle.std.specs.Fmt.{decimal};
ghost use Rattle.std.specs.Prelude.{codes, count_by, false, length, Some, true, ◌++◌, ◌+◌, ◌≡◌, ◌%◌, ◌^◌};

use std::{fmt, io};

// The vectors run, and those of them that came out otherwise.
#[derive(Clone, Copy, Debug, PartialEq, Eq)]
pub struct Score {
    run: u64,
    wrong: u64,
}

impl Score {
    pub fn none() -> Score
        ensures run { result.run ≡ 0 }
        ensures wrong { result.wrong ≡ 0 }
    {
        Score { run: 0, wrong: 0 }
    }

    // One vector more, which is written with its number if it came out otherwise.
    pub fn told(&mut self, rt: &impl Print, ok: bool) -> io::Result<()>
        ensures run { self.new.run ≡ (self.old.run + 1) % 2 ^ 64 }
        ensures right { ok ≡ true → self.new.wrong ≡ self.old.wrong }
        ensures wrong { ok ≡ false → self.new.wrong ≡ (self.old.wrong + 1) % 2 ^ 64 }
    {
        self.run = self.run.wrapping_add(1);
        if ok {
            return Ok(());
        }
        self.wrong = self.wrong.wrapping_add(1);
        println!(rt; "wrong: vector {}", self.run)
    }
}

impl fmt::Display for Score {
    ghost output = { λ s. Some (decimal s.run ++ codes " vectors, " ++ decimal s.wrong ++ codes " wrong") };

    fn fmt<W: fmt::Write>(&self, f: &mut fmt::Formatter<W>) -> fmt::Result {
        write!(f, "{} vectors, {} wrong", self.run, self.wrong)
    }
}

// The vectors that came out as they must, and all of them.
#[derive(Clone, Copy, Debug, PartialEq, Eq)]
pub struct Agreed {
    pub agree: usize,
    pub of: usize,
}

impl Agreed {
    pub fn among(vectors: &[bool]) -> Agreed
        ensures agree { result.agree ≡ count_by (λ ok. ok) vectors.now }
        ensures of { result.of ≡ length vectors.now }
    {
        Agreed {
            agree: vectors.iter().filter(|ok| **ok).count(),
            of: vectors.len(),
        }
    }
}

impl fmt::Display for Agreed {
    ghost output = { λ a. Some (decimal a.agree ++ codes " of " ++ decimal a.of) };

    fn fmt<W: fmt::Write>(&self, f: &mut fmt::Formatter<W>) -> fmt::Result {
        write!(f, "{} of {}", self.agree, self.of)
    }
}
