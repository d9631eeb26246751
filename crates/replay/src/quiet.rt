// The calls that change no table: soundness, Lookup, Simplify, Simplify binary, Rename, Write and Model.
use crate::answer::Answer;
use crate::lent::{blank, narrowed};
use crate::line::Line;
use crate::memory::Table;
use crate::part::Part;
use capi::clauses::{hz_simplify, hz_simplify_binary};
use capi::counts::hz_is_sound;
use capi::lines::{hz_rename, hz_write};
use capi::models::hz_model;
use capi::opening::{
    hz_assignment, hz_global_from_solver, hz_global_from_user, hz_record, hz_solver_from_global,
    hz_user_from_global,
};
use numbers::HzStep;

pub fn sound(table: &mut Table) -> Answer {
    let (c, gu, ug, sg, gs, assignment, records) = table.lend();
    let is_sound = hz_is_sound(c, gu, ug, sg, gs, assignment, records);
    Answer::new(0, [is_sound.into(), 0, 0, 0, 0])
}

pub fn lookup(table: &mut Table, line: &Line) -> Answer {
    let i = line.arg(1);
    let (c, gu, ug, sg, gs, assignment, records) = table.lend();
    let r = match line.arg(0) {
        0 => hz_global_from_user(c, gu, ug, sg, gs, assignment, records, i),
        1 => hz_user_from_global(c, gu, ug, sg, gs, assignment, records, i),
        2 => hz_solver_from_global(c, gu, ug, sg, gs, assignment, records, i),
        3 => hz_global_from_solver(c, gu, ug, sg, gs, assignment, records, i),
        4 => hz_record(c, gu, ug, sg, gs, assignment, records, i),
        _ => hz_assignment(c, gu, ug, sg, gs, assignment, records, i),
    };
    r.into()
}

#[inline(never)]
pub fn simplify(table: &mut Table, line: &Line) -> Answer {
    let mut lits = blank::<u32>();
    let lits = narrowed(line.part(Part::Lits), &mut lits);
    let format = line.arg(0);
    let redundant = line.arg(1) != 0;
    let mut out = blank::<u32>();
    let out = &mut out[..line.room(0)];
    let mut proof = blank::<u8>();
    let proof = &mut proof[..line.room(1)];
    let (c, gu, ug, sg, gs, assignment, records) = table.lend();
    let r = hz_simplify(
        c, gu, ug, sg, gs, assignment, records, format, lits, redundant, out, proof,
    );
    Answer::from(r)
        .filled(Part::Words, out, line)
        .filled(Part::Bytes, proof, line)
}

// The line's literals are the words of the lists.
#[inline(never)]
pub fn binary(table: &mut Table, line: &Line) -> Answer {
    let mut lits = blank::<u32>();
    let lits = narrowed(line.part(Part::Lits), &mut lits);
    let format = line.arg(0);
    let mut out = blank::<u32>();
    let out = &mut out[..line.room(0)];
    let mut proof = blank::<u8>();
    let proof = &mut proof[..line.room(1)];
    let (c, gu, ug, sg, gs, assignment, records) = table.lend();
    let r = hz_simplify_binary(
        c, gu, ug, sg, gs, assignment, records, format, lits, out, proof,
    );
    Answer::from(r)
        .filled(Part::Words, out, line)
        .filled(Part::Bytes, proof, line)
}

#[inline(never)]
pub fn rename(table: &mut Table, line: &Line) -> Answer {
    let mut lits = blank::<u32>();
    let lits = narrowed(line.part(Part::Lits), &mut lits);
    let step = HzStep {
        kind: line.arg(0),
        a: line.arg(1),
        b: line.arg(2),
    };
    let solver_lits = line.arg(3) != 0;
    let mut out = blank::<u32>();
    let out = &mut out[..line.room(0)];
    let mut more = blank::<u64>();
    let more = &mut more[..line.room(1)];
    let (c, gu, ug, sg, gs, assignment, records) = table.lend();
    let r = hz_rename(
        c,
        gu,
        ug,
        sg,
        gs,
        assignment,
        records,
        step,
        solver_lits,
        lits,
        line.part(Part::Hashes),
        out,
        more,
    );
    Answer::from(r)
        .filled(Part::Words, out, line)
        .filled(Part::More, more, line)
}

#[inline(never)]
pub fn write(table: &mut Table, line: &Line) -> Answer {
    let mut lits = blank::<u32>();
    let lits = narrowed(line.part(Part::Lits), &mut lits);
    let format = line.arg(0);
    let step = HzStep {
        kind: line.arg(1),
        a: line.arg(2),
        b: line.arg(3),
    };
    let solver_lits = line.arg(4) != 0;
    let mut proof = blank::<u8>();
    let proof = &mut proof[..line.room(0)];
    let (c, gu, ug, sg, gs, assignment, records) = table.lend();
    let r = hz_write(
        c,
        gu,
        ug,
        sg,
        gs,
        assignment,
        records,
        format,
        step,
        solver_lits,
        lits,
        line.part(Part::Hashes),
        proof,
    );
    Answer::from(r).filled(Part::Bytes, proof, line)
}

#[inline(never)]
pub fn model(table: &mut Table, line: &Line) -> Answer {
    let mut globals = blank::<u32>();
    let globals = &mut globals[..line.room(0)];
    let mut users = blank::<u32>();
    let users = &mut users[..line.room(1)];
    let (c, gu, ug, sg, gs, assignment, records) = table.lend();
    let r = hz_model(c, gu, ug, sg, gs, assignment, records, globals, users);
    Answer::from(r)
        .filled(Part::Words, globals, line)
        .filled(Part::More, users, line)
}
