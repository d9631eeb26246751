// The fill: the codes and ends of lines that are right. It asks nothing of a byte that the judging has asked.
ghost use Rattle.std.specs.Prelude.{length};
ghost use Rattle.dimacs.specs.Reading.{clauses_at};
ghost use Rattle.dimacs.specs.Calls.{tallied, LineScan};
ghost use Rattle.dimacs_read.specs.Known.{LinesFit};

use drat_read::literal::literal_at;

// Fills all clauses; v is what the lines were judged by. Each turn goes on by a literal or by a line's end.
pub(crate) fn fill(s: &[u8], from: usize, v: u32, codes: &mut [u32], ends: &mut [u64])
    requires { LinesFit s.now v from (length codes.old) (length ends.old) }
    ensures { LineScan s.now v from codes.old ends.old codes.new ends.new (tallied (clauses_at s.now v from)) }
{
    let mut at = from;
    let mut n: usize = 0;
    let mut m: usize = 0;
    while at < s.len() {
        while s[at] != 48 {
            let w = literal_at(s, at);
            codes[n] = w.code;
            n += 1;
            at = w.next + 1;
        }
        ends[m] = n as u64;
        m += 1;
        at += 2;
    }
}
