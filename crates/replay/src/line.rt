// A line as it was read: its call, and the numbers of each part.
ghost use Rattle.std.specs.Prelude.{◌≤◌};

use crate::call::Call;
use crate::fault::Fault;
use crate::part::Part;
use scope::Counts;

// A line has at most so many numbers, a slice that is lent or handed over so many elements, a list of a table so many words.
const NUMBERS: usize = 16500;

pub const ELEMENTS: usize = 8200;

pub const WORDS: usize = 4100;

// Where the numbers of a part stand.
#[derive(Clone, Copy)]
struct Place {
    begun: bool,
    start: usize,
    end: usize,
}

// A part that has not begun.
const NOWHERE: Place = Place {
    begun: false,
    start: 0,
    end: 0,
};

#[derive(Drop)]
pub struct Line {
    // None before the line begins.
    call: Option<Call>,
    // The numbers of all parts, one after the other, and how many they are.
    numbers: [u64; NUMBERS],
    len: usize,
    places: [Place; Part::COUNT],
    // The part that is being filled.
    part: Part,
}

impl Line {
    pub fn new() -> Line {
        Line {
            call: None,
            numbers: [0; NUMBERS],
            len: 0,
            places: [NOWHERE; Part::COUNT],
            part: Part::Args,
        }
    }

    // No line: the next begins.
    pub fn clear(&mut self) {
        self.call = None;
        self.len = 0;
        self.places = [NOWHERE; Part::COUNT];
        self.part = Part::Args;
    }

    pub fn call(&self) -> Option<Call> {
        self.call
    }

    // The call's name comes first.
    pub fn name(&mut self, call: Call) {
        self.call = Some(call);
    }

    // A part begins; it may do so once.
    pub fn begin(&mut self, part: Part) -> Result<(), Fault> {
        let place = &mut self.places[part.index()];
        if place.begun {
            return Err(Fault::Name);
        }
        *place = Place {
            begun: true,
            start: self.len,
            end: self.len,
        };
        self.part = part;
        Ok(())
    }

    // One number more of the part that began last. Hashes and `more` have 64 bits, bytes 8, all others 32.
    pub fn push(&mut self, n: u64) -> Result<(), Fault> {
        let most = match self.part {
            Part::Hashes | Part::More => u64::MAX,
            Part::Proof | Part::Bytes => 255,
            _ => 4294967295,
        };
        if most < n {
            return Err(Fault::Large);
        }
        let len = self.len;
        *self.numbers.get_mut(len).ok_or(Fault::Long)? = n;
        self.len = len.saturating_add(1);
        self.places[self.part.index()].end = self.len;
        Ok(())
    }

    // The numbers of a part, none where it is left out.
    pub fn part(&self, part: Part) -> &[u64] {
        let place = self.places[part.index()];
        self.numbers.get(place.start..place.end).unwrap_or(&[])
    }

    // Number i of a part of 32 bits, and 0 past them.
    fn number(&self, part: Part, i: usize) -> u32 {
        (self.part(part).get(i).copied().unwrap_or(0) % 4294967296) as u32
    }

    pub fn arg(&self, i: usize) -> u32 {
        self.number(Part::Args, i)
    }

    // The length of slice i that is lent; a line that asks for more does not fit.
    pub fn room(&self, i: usize) -> usize
        ensures { result ≤ ELEMENTS }
    {
        ELEMENTS.min(self.number(Part::Room, i) as usize)
    }

    // Number i of the answer: the refusal, and those after it. One that the line leaves out is 0.
    pub fn given(&self, i: usize) -> u32 {
        self.number(Part::Gives, i)
    }

    // The counts that the line gives, or those before where it gives none.
    pub fn counts_after(&self, before: Counts) -> Counts {
        if self.part(Part::Counts).is_empty() {
            return before;
        }
        Counts {
            capacity: self.number(Part::Counts, 0),
            user: self.number(Part::Counts, 1),
            global: self.number(Part::Counts, 2),
            solver: self.number(Part::Counts, 3),
            used: self.number(Part::Counts, 4),
            next: self.number(Part::Counts, 5),
        }
    }

    fn count(&self, part: Part) -> usize {
        self.part(part).len()
    }

    // Whether it has what its call takes.
    pub fn fits(&self, call: Call) -> bool {
        let taken = self.count(Part::Args) == call.args() && self.count(Part::Room) == call.rooms();
        let counted = self.count(Part::Counts) == 0 || self.count(Part::Counts) == 6;
        let has_own = match call {
            Call::Load => self.loads(),
            _ => self.answers(),
        };
        taken && counted && has_own && self.count(Part::Set) % 3 == 0
    }

    // A load has no answer, and its lists are not too long.
    fn loads(&self) -> bool {
        let mut lengths = self.part(Part::Args).iter().skip(6);
        self.count(Part::Counts) == 0
            && self.count(Part::Gives) == 0
            && lengths.all(|n| *n as usize <= WORDS)
    }

    // A call has an answer of at most six numbers, and its slices are not too long.
    fn answers(&self) -> bool {
        let mut rooms = self.part(Part::Room).iter();
        (1..=6).contains(&self.count(Part::Gives))
            && rooms.all(|n| *n as usize <= ELEMENTS)
            && self.count(Part::Lits) <= ELEMENTS
            && self.count(Part::Hashes) <= ELEMENTS
            && self.count(Part::Proof) <= ELEMENTS
    }
}
