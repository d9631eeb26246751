// Open, Grant, the marks, Assign, Remove and Sweep: each is made, and what it filled is compared with the line.
use crate::answer::{Answer, numbers};
use crate::lent::blank;
use crate::line::Line;
use crate::memory::Table;
use crate::part::Part;
use capi::grants::hz_grant;
use capi::marking::{hz_assign, hz_mark};
use capi::opening::hz_open;
use capi::removing::{hz_remove, hz_sweep};

// The counts that a refused Open answers are the capacity and else 0; the table's counts stay.
pub fn open(table: &mut Table, line: &Line) -> Answer {
    let capacity = line.arg(0);
    let (_, gu, ug, sg, gs, assignment, records) = table.lend();
    let r = hz_open(capacity, gu, ug, sg, gs, assignment, records);
    if r.refusal == 0 {
        return r.into();
    }
    Answer {
        counts: None,
        differs: (numbers(r.counts) != [capacity, 0, 0, 0, 0, 0]).then_some(Part::Counts),
        ..r.into()
    }
}

#[inline(never)]
pub fn grant(table: &mut Table, line: &Line) -> Answer {
    let global = line.arg(0);
    let mut notes = blank::<u32>();
    let notes = &mut notes[..line.room(0)];
    let (c, gu, ug, sg, gs, assignment, records) = table.lend();
    let r = hz_grant(c, gu, ug, sg, gs, assignment, records, global, notes);
    Answer::from(r).filled(Part::Notes, notes, line)
}

// The marks and Assign make no notes.
pub fn mark(table: &mut Table, line: &Line) -> Answer {
    let mark = line.arg(0);
    let solver = line.arg(1);
    let (c, gu, ug, sg, gs, assignment, records) = table.lend();
    let r = hz_mark(c, gu, ug, sg, gs, assignment, records, mark, solver);
    Answer::from(r).filled::<u32>(Part::Notes, &[], line)
}

pub fn assign(table: &mut Table, line: &Line) -> Answer {
    let lit = line.arg(0);
    let (c, gu, ug, sg, gs, assignment, records) = table.lend();
    let r = hz_assign(c, gu, ug, sg, gs, assignment, records, lit);
    Answer::from(r).filled::<u32>(Part::Notes, &[], line)
}

#[inline(never)]
pub fn remove(table: &mut Table, line: &Line) -> Answer {
    let solver = line.arg(0);
    let mut notes = blank::<u32>();
    let notes = &mut notes[..line.room(0)];
    let (c, gu, ug, sg, gs, assignment, records) = table.lend();
    let r = hz_remove(c, gu, ug, sg, gs, assignment, records, solver, notes);
    Answer::from(r).filled(Part::Notes, notes, line)
}

#[inline(never)]
pub fn sweep(table: &mut Table, line: &Line) -> Answer {
    let mut notes = blank::<u32>();
    let notes = &mut notes[..line.room(0)];
    let (c, gu, ug, sg, gs, assignment, records) = table.lend();
    let r = hz_sweep(c, gu, ug, sg, gs, assignment, records, notes);
    Answer::from(r).filled(Part::Notes, notes, line)
}
