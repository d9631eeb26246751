// DIMACS CNF: the writer and the reader.
ghost use Rattle.std.specs.Prelude.{◌≡◌, [], ◌∷◌, length};
ghost use Rattle.base.specs.Lent.{Fills, change};
ghost use Rattle.dimacs.specs.Calls.{write_cnf_of, read_cnf_of};
ghost use Rattle.numbers.specs.Surface.{plain, located};

use line_answers::cnf::HzCnf;
use line_answers::written::HzWritten;

// The clauses of the lists that `hz_read_cnf` fills, as a file (3, 2): `write_cnf_of`.
#[unsafe(no_mangle)]
pub extern "C" fn hz_write_cnf(codes: &[u32], ends: &[u64], out: &mut [u8]) -> HzWritten
    ensures value { let w = write_cnf_of codes.now ends.now (length out.old) in
        result.refusal ∷ result.bytes ∷ [] ≡ plain 1 w.answer }
    ensures out { let w = write_cnf_of codes.now ends.now (length out.old) in
        Fills (change out.old out.new) 0 w.bytes }
{
    capi::cnf::hz_write_cnf(codes, ends, out)
}

// A file's clauses (17, 2): `read_cnf_of`.
#[unsafe(no_mangle)]
pub extern "C" fn hz_read_cnf(bytes: &[u8], codes: &mut [u32], ends: &mut [u64]) -> HzCnf
    ensures value { let w = read_cnf_of bytes.now (length codes.old) (length ends.old) in
        result.refusal ∷ result.place ∷ result.variables ∷ result.lits ∷ result.clauses ∷ [] ≡ located 3 w.answer }
    ensures codes { let w = read_cnf_of bytes.now (length codes.old) (length ends.old) in
        Fills (change codes.old codes.new) 0 w.codes }
    ensures ends { let w = read_cnf_of bytes.now (length codes.old) (length ends.old) in
        Fills (change ends.old ends.new) 0 w.ends }
{
    capi::cnf::hz_read_cnf(bytes, codes, ends)
}
