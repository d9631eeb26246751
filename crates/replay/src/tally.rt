// How often each call met each refusal.
use crate::call::Call;
use std::fmt;

// Refusals are below it, but for 4294967295, which says that a number for a format, a mode or a mark is none. That one is not tallied.
const REFUSALS: usize = 32;

#[derive(Drop)]
pub struct Tally {
    calls: u64,
    // For each call, in the order of `Call::ALL`, how often it met each refusal.
    met: [[u64; REFUSALS]; Call::COUNT],
}

impl Tally {
    pub fn new() -> Tally {
        Tally {
            calls: 0,
            met: [[0; REFUSALS]; Call::COUNT],
        }
    }

    // A call that agreed.
    pub fn add(&mut self, call: Call, refusal: u32) {
        self.calls = self.calls.saturating_add(1);
        for (row, of) in self.met.iter_mut().zip(Call::ALL) {
            if of == call {
                if let Some(n) = row.get_mut(refusal as usize) {
                    *n = n.saturating_add(1);
                }
            }
        }
    }
}

// How often a call was accepted, and how often refused with each number.
#[derive(Clone, Copy)]
struct Row<'a>(&'a [u64]);

impl fmt::Display for Row<'_> {
    fn fmt<W: fmt::Write>(&self, f: &mut fmt::Formatter<W>) -> fmt::Result {
        for (refusal, n) in self.0.iter().enumerate() {
            match (refusal, *n) {
                (_, 0) => (),
                (0, n) => write!(f, " {n} accepted")?,
                (_, n) => write!(f, ", {n} refused with {refusal}")?,
            }
        }
        Ok(())
    }
}

// A line for each call, and the sum.
impl fmt::Display for Tally {
    fn fmt<W: fmt::Write>(&self, f: &mut fmt::Formatter<W>) -> fmt::Result {
        let calls = self.calls;
        for (row, call) in self.met.iter().zip(Call::ALL) {
            if call != Call::Load {
                write!(f, "{call}:{}\n", Row(row))?;
            }
        }
        write!(f, "{calls} calls, {calls} agree\n")
    }
}
