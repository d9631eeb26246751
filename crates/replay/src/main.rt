// Replays the recorded list of oracle/: each line of standard input is a call with its whole answer, as README.md here describes. The call
// is made on the library's C surface; its answer, every word of the six lists and every word lent to be filled must be what the line says.
#![tactic(auto)]

mod answer;
mod call;
mod codec;
mod fault;
mod gives;
mod holds;
mod lent;
mod line;
mod memory;
mod names;
mod part;
mod quiet;
mod scan;
mod tally;

use answer::Answer;
use call::Call;
use fault::{Fault, Stop};
use line::Line;
use memory::Table;
use scan::Scan;
use std::io;
use std::io::{Read, Write};
use tally::Tally;

// So many bytes are read at once.
const BLOCK: usize = 4096;

// What is known between the bytes of the input.
#[derive(Drop)]
struct Replay {
    // The number of the line that is being read, from 1 on.
    number: u64,
    scan: Scan,
    table: Table,
    tally: Tally,
}

// What the library answers to a line's call, beside what the line says.
fn answered(table: &mut Table, line: &Line, call: Call) -> Answer {
    match call {
        Call::Lookup => quiet::lookup(table, line),
        Call::Map => names::map(table, line),
        Call::NewUser => names::new_user(table, line),
        Call::Pose => names::pose(table, line),
        Call::Grant => holds::grant(table, line),
        Call::SetMode => names::set_mode(table, line),
        Call::Observe => names::observe(table, line),
        Call::Mark => holds::mark(table, line),
        Call::Assign => holds::assign(table, line),
        Call::Remove => holds::remove(table, line),
        Call::Sweep => holds::sweep(table, line),
        Call::Simplify => quiet::simplify(table, line),
        Call::Rename => quiet::rename(table, line),
        Call::Write => quiet::write(table, line),
        Call::Model => quiet::model(table, line),
        Call::Open => holds::open(table, line),
        Call::Read => codec::read(line),
        Call::First => codec::first_step(line),
        Call::Sound => quiet::sound(table),
        Call::Binary => quiet::binary(table, line),
        Call::WriteCnf => codec::write_cnf(line),
        Call::ReadCnf => codec::read_cnf(line),
        Call::Load => Answer::new(0, [0; 5]),
    }
}

// A whole line: the call's answer, and then the table, must be what it says.
fn judged(table: &mut Table, tally: &mut Tally, line: &Line, call: Call) -> Result<(), Fault> {
    if call == Call::Load {
        return table.load(line);
    }
    let before = table.counts;
    answered(table, line, call).check(line, before)?;
    table.check(line)?;
    tally.add(call, line.given(0));
    Ok(())
}

impl Replay {
    fn new() -> Replay {
        Replay {
            number: 1,
            scan: Scan::new(),
            table: Table::new(),
            tally: Tally::new(),
        }
    }

    // One byte more.
    fn take(&mut self, byte: u8) -> Result<(), Fault> {
        if byte != b'\n' {
            return self.scan.take(byte);
        }
        let (line, call) = self.scan.end_line()?;
        judged(&mut self.table, &mut self.tally, line, call)?;
        self.scan.clear();
        self.number = self.number.saturating_add(1);
        Ok(())
    }

    // A proved loop has to end, and nothing says that the input does: the number of its turns is one that no run uses up.
    fn run(&mut self, rt: &impl Input) -> Result<(), Stop> {
        let mut input = rt.reader();
        let mut block = [0; BLOCK];
        for _ in 0..u64::MAX {
            let n = input.read(&mut block)?;
            if n == 0 {
                break;
            }
            for byte in block.iter().take(n) {
                self.take(*byte)?;
            }
        }
        if self.scan.is_inside() {
            return Err(Stop::Fault(Fault::Cut));
        }
        Ok(())
    }

    // One line: where, in which call, and what.
    fn tell(&self, rt: &impl Print, fault: Fault) -> io::Result<()> {
        let number = self.number;
        match self.scan.call() {
            None => writeln!(io::writer(rt), "line {number}: {fault}"),
            Some(call) => writeln!(io::writer(rt), "line {number}: {call}: {fault}"),
        }
    }
}

// A write or a read that fails ends the run.
fn main(rt: HostRuntime) -> io::Result<()> {
    let mut replay = Replay::new();
    match replay.run(&rt) {
        Ok(()) => write!(io::writer(&rt), "{}", replay.tally),
        Err(Stop::Fault(fault)) => replay.tell(&rt, fault),
        Err(Stop::Failed(e)) => Err(e),
    }
}
