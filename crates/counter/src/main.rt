// A day at the counter of a maker of smart cash boxes: one session from Open to Model at capacity 8, then a short one at capacity 2.
// Each call is made, and its answer, its notes and its bytes are printed, and how full the table then is. Each piece of a text is a write of its own.
#![tactic(auto)]

mod script;
mod session;
mod telling;

use drat::{Format, ReadError};
use drat_read::read_proof;
use scope::Refusal;
use script::{Call, DAY, SMALL_BOX};
use session::{Session, front};
use std::io;
use std::io::Write;
use telling::{Fill, LEGEND, Lits, Values};

// Why a call is refused, after its number.
fn refuse(rt: &impl Print, why: Refusal) -> io::Result<()> {
    write!(io::writer(rt), "refused: {}", u32::from(why))?;
    print!(rt; ", {why}")?;
    println!(rt)
}

// The steps of a proof that was read: where the literals of each end, and whether it deletes.
fn print_steps(rt: &impl Print, codes: &[u32], ends: &[u64], kinds: &[u8]) -> io::Result<()> {
    let mut start = 0;
    for (end, kind) in ends.iter().zip(kinds) {
        let end = *end as usize;
        let lits = Lits('g', codes.get(start..end).unwrap_or(&[]));
        let name = if *kind == 0 { "  add" } else { "  delete" };
        writeln!(io::writer(rt), "{name}{lits}")?;
        start = end;
    }
    Ok(())
}

// Read.
fn read_back(rt: &impl Print, bytes: &[u8]) -> io::Result<()> {
    let mut codes = [0u32; 64];
    let mut ends = [0u64; 16];
    let mut kinds = [0u8; 16];
    match read_proof(Format::Text, bytes, &mut codes, &mut ends, &mut kinds) {
        Ok(size) => print_steps(rt, &codes, front(&ends, size.steps), &kinds),
        Err(ReadError::NotWhole(_)) => println!(rt; "refused: 13, a step is not whole"),
        Err(ReadError::Room) => refuse(rt, Refusal::Short),
    }
}

// Model.
fn print_model<const N: usize>(rt: &impl Print, session: &Session<N>) -> io::Result<()> {
    let mut globals = [0u32; N];
    let mut users = [0u32; N];
    match session.model(&mut globals, &mut users) {
        Ok(made) => {
            let values = Values(front(&globals, made.globals as usize));
            write!(io::writer(rt), "values of the globals:{values}")?;
            writeln!(
                io::writer(rt),
                "\nmodel:{}",
                Lits('u', front(&users, made.users as usize))
            )
        }
        Err(why) => refuse(rt, why),
    }
}

// A session: the calls, then the proof, read back step by step, and the model.
fn play<const N: usize>(
    rt: &impl Print,
    mut session: Session<N>,
    calls: &[Call],
) -> io::Result<()> {
    for call in calls {
        write!(io::writer(rt), "{call}")?;
        match session.make(*call) {
            Ok(answer) => write!(io::writer(rt), "{answer}")?,
            Err(why) => {
                write!(io::writer(rt), "{}", call.gap())?;
                refuse(rt, why)?
            }
        }
        write!(io::writer(rt), "{}", Fill(session.counts()))?;
    }
    println!(rt; "proof:")?;
    read_back(rt, session.proof())?;
    print_model(rt, &session)
}

// A write that fails ends the run.
fn main(rt: HostRuntime) -> io::Result<()> {
    rt.print(LEGEND)?;
    play(&rt, Session::<8>::new(), &DAY)?;
    println!(rt)?;
    play(&rt, Session::<2>::new(), &SMALL_BOX)
}
