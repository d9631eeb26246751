// Pose at once, in the lists that it reads, of a table known to be sound.
// The lists are parameters of their own, as the C interface lends them.
#![tactic(auto)]

ghost use Rattle.std.specs.Prelude.{◌≡◌, true};
ghost use Rattle.base.specs.Bounded.{every_of};
ghost use Rattle.scope.specs.Literals.{index_of};
ghost use Rattle.scope.specs.Table.{Table};
ghost use Rattle.scope.specs.Sound.{soundb};
ghost use Rattle.ready.specs.Ready.{is_ready, PosedAtOnce};

use scope::User;
use table::{global_of, solver_of};

// The user has a solver index, below 4,096 as in every sound table, and is sampled if that is required.
fn is_ready(gu: &[u32], sg: &[u32], records: &[u32], user: User, sampling: bool) -> bool
    ensures { result ≡ is_ready gu.now sg.now records.now sampling user.0 }
{
    let Some(g) = global_of(gu, user) else {
        return false;
    };
    let Some(s) = solver_of(sg, g) else {
        return false;
    };
    if 4096 <= s.0 {
        return false;
    }
    if !sampling {
        return true;
    }
    if records.len() <= g.0 as usize {
        return false;
    }
    records[g.0 as usize] % 3 == 0
}

// It is so of every literal's user.
fn all_ready(gu: &[u32], sg: &[u32], records: &[u32], lits: &[u32], sampling: bool) -> bool
    ensures { result ≡ every_of (λ c. is_ready gu.now sg.now records.now sampling (index_of c)) lits.now }
{
    lits.iter()
        .all(|lit| is_ready(gu, sg, records, User(*lit / 2), sampling))
}

// Pose of literals whose users all have solver indices, in the lists that it reads, of a table known to be sound: filled, where the call is accepted and
// makes no note; nothing, where it is refused or makes one. Any words may be lent. Definition: specs/Ready.antt, `PosedAtOnce`.
pub fn pose_in(
    gu: &[u32],
    sg: &[u32],
    records: &[u32],
    lits: &[u32],
    sampling: bool,
    out: &mut [u32],
) -> bool
    ensures { (t : Table) → soundb t ≡ true → t.global_from_user ≡ gu.now → t.solver_from_global ≡ sg.now → t.records ≡ records.now
        → PosedAtOnce t lits.now sampling result out.old out.new }
{
    if (8192 < lits.len()) | (out.len() < lits.len()) {
        return false;
    }
    if !all_ready(gu, sg, records, lits, sampling) {
        return false;
    }
    for i in 0..lits.len() {
        let code = lits[i];
        let g = gu[(code / 2) as usize] - 1;
        let s = sg[g as usize] - 1;
        out[i] = 2 * s + code % 2;
    }
    true
}
