// The table that the library works on, and a copy of what its lists should be.
use crate::fault::Fault;
use crate::line::{Line, WORDS};
use crate::part::Part;
use scope::Counts;

// The records hold it where a load sets no other word.
const RECORD: u32 = 47;

// The six lists, each with room for the longest. By name: an array is not taken apart behind a `&mut`.
#[derive(Drop)]
struct Lists {
    gu: [u32; WORDS],
    ug: [u32; WORDS],
    sg: [u32; WORDS],
    gs: [u32; WORDS],
    assignment: [u32; WORDS],
    records: [u32; WORDS],
}

impl Lists {
    fn new() -> Lists {
        Lists {
            gu: [0; WORDS],
            ug: [0; WORDS],
            sg: [0; WORDS],
            gs: [0; WORDS],
            assignment: [0; WORDS],
            records: [0; WORDS],
        }
    }

    // The lists as lines number them.
    fn all(&self) -> [&[u32; WORDS]; 6] {
        [
            &self.gu,
            &self.ug,
            &self.sg,
            &self.gs,
            &self.assignment,
            &self.records,
        ]
    }

    fn list_mut(&mut self, k: u64) -> Option<&mut [u32; WORDS]> {
        match k {
            0 => Some(&mut self.gu),
            1 => Some(&mut self.ug),
            2 => Some(&mut self.sg),
            3 => Some(&mut self.gs),
            4 => Some(&mut self.assignment),
            5 => Some(&mut self.records),
            _ => None,
        }
    }

    // Every word becomes 0, or in the records 47, but for those that a line sets.
    fn load(&mut self, set: &[u64]) -> Result<(), Fault> {
        self.gu.fill(0);
        self.ug.fill(0);
        self.sg.fill(0);
        self.gs.fill(0);
        self.assignment.fill(0);
        self.records.fill(RECORD);
        self.set(set)
    }

    // Of each list as many words as it is long.
    fn lend(&mut self, counts: Counts, lengths: [u32; 6]) -> Taken<'_> {
        let [gu, ug, sg, gs, assignment, records] = lengths;
        (
            counts,
            first(&mut self.gu, gu),
            first(&mut self.ug, ug),
            first(&mut self.sg, sg),
            first(&mut self.gs, gs),
            first(&mut self.assignment, assignment),
            first(&mut self.records, records),
        )
    }

    // The words that a line changes: list, place, word.
    fn set(&mut self, set: &[u64]) -> Result<(), Fault> {
        for change in set.chunks_exact(3) {
            let &[k, place, word] = change else {
                return Err(Fault::Shape);
            };
            let list = self.list_mut(k).ok_or(Fault::Shape)?;
            *list.get_mut(place as usize).ok_or(Fault::Shape)? = (word % 4294967296) as u32;
        }
        Ok(())
    }
}

// The first n words.
fn first(list: &mut [u32; WORDS], n: u32) -> &mut [u32] {
    let n = WORDS.min(n as usize);
    &mut list[..n]
}

#[derive(Drop)]
pub struct Table {
    pub counts: Counts,
    // How many words of each list the library has.
    lengths: [u32; 6],
    words: Lists,
    expected: Lists,
}

// The counts and the six lists, as a call takes them: a tuple, since no proof is made yet of a call that borrows several fields of a struct.
pub type Taken<'a> = (
    Counts,
    &'a mut [u32],
    &'a mut [u32],
    &'a mut [u32],
    &'a mut [u32],
    &'a mut [u32],
    &'a mut [u32],
);

impl Table {
    // Before one is loaded, the lists are empty.
    pub fn new() -> Table {
        Table {
            counts: Counts {
                capacity: 0,
                user: 0,
                global: 0,
                solver: 0,
                used: 0,
                next: 0,
            },
            lengths: [0; 6],
            words: Lists::new(),
            expected: Lists::new(),
        }
    }

    // The table of a line that loads one: the six counts, and how many words each list has.
    pub fn load(&mut self, line: &Line) -> Result<(), Fault> {
        self.words.load(line.part(Part::Set))?;
        self.expected.load(line.part(Part::Set))?;
        self.counts = Counts {
            capacity: line.arg(0),
            user: line.arg(1),
            global: line.arg(2),
            solver: line.arg(3),
            used: line.arg(4),
            next: line.arg(5),
        };
        self.lengths = [
            line.arg(6),
            line.arg(7),
            line.arg(8),
            line.arg(9),
            line.arg(10),
            line.arg(11),
        ];
        Ok(())
    }

    pub fn lend(&mut self) -> Taken<'_> {
        self.words.lend(self.counts, self.lengths)
    }

    // The lists and the counts after a call must be what its line says.
    pub fn check(&mut self, line: &Line) -> Result<(), Fault> {
        self.expected.set(line.part(Part::Set))?;
        let expected = self.expected.all();
        let mut lists = self.words.all().into_iter().zip(expected);
        if let Some(k) = lists.position(|(words, expected)| *words != *expected) {
            return Err(Fault::List(k));
        }
        self.counts = line.counts_after(self.counts);
        Ok(())
    }
}
