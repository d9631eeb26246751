// Map, New user, Set mode, Pose and Observe: each is made, and what it filled is compared with the line.
use crate::answer::Answer;
use crate::lent::{blank, narrowed};
use crate::line::Line;
use crate::memory::Table;
use crate::part::Part;
use capi::names::{hz_map, hz_new_user};
use capi::poses::hz_pose;
use capi::showing::{hz_observe, hz_set_mode};

#[inline(never)]
pub fn map(table: &mut Table, line: &Line) -> Answer {
    let user = line.arg(0);
    let sampling = line.arg(1) != 0;
    let mut notes = blank::<u32>();
    let notes = &mut notes[..line.room(0)];
    let (c, gu, ug, sg, gs, assignment, records) = table.lend();
    let r = hz_map(
        c, gu, ug, sg, gs, assignment, records, user, sampling, notes,
    );
    Answer::from(r).filled(Part::Notes, notes, line)
}

#[inline(never)]
pub fn new_user(table: &mut Table, line: &Line) -> Answer {
    let mut notes = blank::<u32>();
    let notes = &mut notes[..line.room(0)];
    let (c, gu, ug, sg, gs, assignment, records) = table.lend();
    let r = hz_new_user(c, gu, ug, sg, gs, assignment, records, notes);
    Answer::from(r).filled(Part::Notes, notes, line)
}

#[inline(never)]
pub fn set_mode(table: &mut Table, line: &Line) -> Answer {
    let global = line.arg(0);
    let mode = line.arg(1);
    let mut notes = blank::<u32>();
    let notes = &mut notes[..line.room(0)];
    let (c, gu, ug, sg, gs, assignment, records) = table.lend();
    let r = hz_set_mode(c, gu, ug, sg, gs, assignment, records, global, mode, notes);
    Answer::from(r).filled(Part::Notes, notes, line)
}

#[inline(never)]
pub fn pose(table: &mut Table, line: &Line) -> Answer {
    let mut lits = blank::<u32>();
    let lits = narrowed(line.part(Part::Lits), &mut lits);
    let sampling = line.arg(0) != 0;
    let mut out = blank::<u32>();
    let out = &mut out[..line.room(0)];
    let mut notes = blank::<u32>();
    let notes = &mut notes[..line.room(1)];
    let (c, gu, ug, sg, gs, assignment, records) = table.lend();
    let r = hz_pose(
        c, gu, ug, sg, gs, assignment, records, lits, sampling, out, notes,
    );
    Answer::from(r)
        .filled(Part::Words, out, line)
        .filled(Part::Notes, notes, line)
}

#[inline(never)]
pub fn observe(table: &mut Table, line: &Line) -> Answer {
    let mut users = blank::<u32>();
    let users = &mut users[..line.room(0)];
    let mut notes = blank::<u32>();
    let notes = &mut notes[..line.room(1)];
    let (c, gu, ug, sg, gs, assignment, records) = table.lend();
    let r = hz_observe(c, gu, ug, sg, gs, assignment, records, users, notes);
    Answer::from(r)
        .filled(Part::Words, users, line)
        .filled(Part::Notes, notes, line)
}
