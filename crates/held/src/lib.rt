// Literals whose users have solver indices already: they are looked up, and nothing is mapped or granted for them.
// The lists are parameters of their own: each function is lent, by `&` or `&mut`, only those that it touches.
#![tactic(auto)]

ghost use Rattle.std.specs.Prelude.{◌≡◌, ◌&&◌, ◌≤◌, length};
ghost use Rattle.base.specs.Bounded.{any_of};
ghost use Rattle.scope.specs.Literals.{index_of};
ghost use Rattle.table.specs.Found.{found_solver};
ghost use Rattle.naming.specs.Parts.{is_unsampled, MapBelow};
ghost use Rattle.held.specs.Parts.{held_word, HeldRun, HeldTried};

use naming::is_unsampled;
use scope::{Solver, User};
use table::{copy_lits, global_of, solver_of};

// The solver index that a user has already.
fn held_solver(gu: &[u32], sg: &[u32], user: User) -> Option<Solver>
    ensures { result ≡ found_solver (held_word gu.now sg.now user.0) }
{
    solver_of(sg, global_of(gu, user)?)
}

// Stores the solver literals of a run of literals from place `from` on whose users have solver indices; where the run ends.
pub fn held_lits(gu: &[u32], sg: &[u32], lits: &[u32], from: usize, codes: &mut [u32]) -> usize
    requires lits_in_bounds { length lits.now ≤ length codes.old }
    requires map_below { MapBelow sg.now 4096 }
    ensures { HeldRun gu.now sg.now lits.now from codes.old result codes.new }
{
    for i in from..lits.len() {
        let code = lits[i];
        let Some(solver) = held_solver(gu, sg, User(code / 2)) else {
            return i;
        };
        codes[i] = 2 * solver.0 + code % 2;
    }
    from.max(lits.len())
}

// Sampling is required, and a literal's user has a global that is not Sample.
pub fn any_unsampled(gu: &[u32], records: &[u32], lits: &[u32], sampling: bool) -> bool
    requires { MapBelow gu.now (length records.now) }
    ensures { result ≡ sampling && any_of (λ c. is_unsampled gu.now records.now (index_of c)) lits.now }
{
    sampling
        && lits
            .iter()
            .any(|lit| is_unsampled(gu, records, User(*lit / 2)))
}

// Where all users have solver indices, and all are sampled if that is required, their solver literals are filled, by way of `codes`. Else it answers
// a number of literals from the start on whose users are known to have solver indices.
fn fill_held(
    gu: &[u32],
    sg: &[u32],
    records: &[u32],
    lits: &[u32],
    sampling: bool,
    codes: &mut [u32],
    out: &mut [u32],
) -> Result<(), usize>
    requires lits_len_bound { length lits.now ≤ 8192 }
    requires lits_in_bounds { length lits.now ≤ length codes.old }
    requires lits_in_bounds_2 { length lits.now ≤ length out.old }
    requires map_below { MapBelow gu.now (length records.now) }
    requires map_below_2 { MapBelow sg.now 4096 }
    ensures { HeldTried gu.now sg.now records.now lits.now sampling result out.old out.new }
{
    let n = held_lits(gu, sg, lits, 0, codes);
    if n < lits.len() {
        return Err(n);
    }
    let unsampled = any_unsampled(gu, records, lits, sampling);
    if unsampled {
        return Err(n);
    }
    copy_lits(&codes[..n], out);
    Ok(())
}

// The same with a list of its own, for up to N literals.
fn fill_up_to<const N: usize>(
    gu: &[u32],
    sg: &[u32],
    records: &[u32],
    lits: &[u32],
    sampling: bool,
    out: &mut [u32],
) -> Result<(), usize>
    requires n_bound { N ≤ 8192 }
    requires lits_in_bounds { length lits.now ≤ N }
    requires lits_in_bounds_2 { length lits.now ≤ length out.old }
    requires map_below { MapBelow gu.now (length records.now) }
    requires map_below_2 { MapBelow sg.now 4096 }
    ensures { HeldTried gu.now sg.now records.now lits.now sampling result out.old out.new }
{
    let mut codes = [0u32; N];
    fill_held(gu, sg, records, lits, sampling, &mut codes, out)
}

// The same for any literals. The list is the shortest of four that is long enough, since it is cleared each time.
pub fn pose_held(
    gu: &[u32],
    sg: &[u32],
    records: &[u32],
    lits: &[u32],
    sampling: bool,
    out: &mut [u32],
) -> Result<(), usize>
    requires map_below { MapBelow gu.now (length records.now) }
    requires map_below_2 { MapBelow sg.now 4096 }
    ensures { HeldTried gu.now sg.now records.now lits.now sampling result out.old out.new }
{
    let n = lits.len();
    if (8192 < n) | (out.len() < n) {
        return Err(0);
    }
    match n {
        0..=8 => fill_up_to::<8>(gu, sg, records, lits, sampling, out),
        9..=64 => fill_up_to::<64>(gu, sg, records, lits, sampling, out),
        65..=1024 => fill_up_to::<1024>(gu, sg, records, lits, sampling, out),
        _ => fill_up_to::<8192>(gu, sg, records, lits, sampling, out),
    }
}
