// The calls that take no table: Read, the first step, Write CNF and Read CNF.
use crate::answer::Answer;
use crate::lent::{blank, narrowed};
use crate::line::Line;
use crate::part::Part;
use capi::cnf::{hz_read_cnf, hz_write_cnf};
use capi::codec::{hz_first_step, hz_read};

#[inline(never)]
pub fn read(line: &Line) -> Answer {
    let mut bytes = blank::<u8>();
    let bytes = narrowed(line.part(Part::Proof), &mut bytes);
    let format = line.arg(0);
    let mut codes = blank::<u32>();
    let codes = &mut codes[..line.room(0)];
    let mut ends = blank::<u64>();
    let ends = &mut ends[..line.room(1)];
    let mut kinds = blank::<u8>();
    let kinds = &mut kinds[..line.room(2)];
    let r = hz_read(format, bytes, codes, ends, kinds);
    Answer::from(r)
        .filled(Part::Words, codes, line)
        .filled(Part::More, ends, line)
        .filled(Part::Bytes, kinds, line)
}

#[inline(never)]
pub fn first_step(line: &Line) -> Answer {
    let mut bytes = blank::<u8>();
    let bytes = narrowed(line.part(Part::Proof), &mut bytes);
    hz_first_step(line.arg(0), bytes).into()
}

// The ends of the clauses stand under `hashes`.
#[inline(never)]
pub fn write_cnf(line: &Line) -> Answer {
    let mut lits = blank::<u32>();
    let lits = narrowed(line.part(Part::Lits), &mut lits);
    let mut file = blank::<u8>();
    let file = &mut file[..line.room(0)];
    let r = hz_write_cnf(lits, line.part(Part::Hashes), file);
    Answer::from(r).filled(Part::Bytes, file, line)
}

// The bytes of the file stand under `proof`.
#[inline(never)]
pub fn read_cnf(line: &Line) -> Answer {
    let mut bytes = blank::<u8>();
    let bytes = narrowed(line.part(Part::Proof), &mut bytes);
    let mut codes = blank::<u32>();
    let codes = &mut codes[..line.room(0)];
    let mut ends = blank::<u64>();
    let ends = &mut ends[..line.room(1)];
    let r = hz_read_cnf(bytes, codes, ends);
    Answer::from(r)
        .filled(Part::Words, codes, line)
        .filled(Part::More, ends, line)
}
