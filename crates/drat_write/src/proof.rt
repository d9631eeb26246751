// A whole proof from its three lists: all literal codes in a row, where each step ends in that row, and a kind for each step.
ghost use Rattle.std.specs.Prelude.{◌≡◌, ◌*◌, ◌≤◌, ◌<◌, leb, length};
ghost use Rattle.base.specs.Lent.{Fills, change};
ghost use Rattle.drat.specs.Grammar.{numbers, encode, Codes};
ghost use Rattle.drat.specs.Listed.{kind_at, listed, rises_to, kinds_test, unlisted};
ghost use Rattle.drat.proofs.ListedLaws.{frames, Listed};

use crate::{all_below, end_len, number_len, open_len, put_step};
use drat::{Format, Kind};

// By hand, since the kinds are 0 and 1 by then: `TryFrom` would bring an error that cannot come.
fn kind_in(n: u8) -> Kind
    ensures { result ≡ kind_at n }
{
    if n == 0 { Kind::Add } else { Kind::Delete }
}

pub fn ends_rise(ends: &[u64], last: usize) -> bool
    ensures { result ≡ rises_to last 0 ends.now }
{
    let mut ok = true;
    let mut a: u64 = 0;
    for end in ends {
        ok = ok & (a <= *end);
        a = *end;
    }
    ok & (a == last as u64)
}

// Apart from `all_below`, which is over `u32`: a trait of words with two impls would be longer than this loop.
#[tactic(auto, using(drat::proofs::WritingLaws::test_more), unfolding(base::specs::Bounded::all_below))]
fn kinds_ok(kinds: &[u8]) -> bool
    ensures { result ≡ kinds_test kinds.now }
{
    let mut ok = true;
    for kind in kinds {
        ok = ok & (*kind < 2);
    }
    ok
}

pub(crate) fn no_proof(codes: &[u32], ends: &[u64], kinds: &[u8]) -> bool
    ensures { result ≡ unlisted codes.now ends.now kinds.now }
{
    !all_below(codes, 8192)
        || ends.len() != kinds.len()
        || !ends_rise(ends, codes.len())
        || !kinds_ok(kinds)
}

// How many bytes all literals take.
pub fn numbers_len(f: Format, codes: &[u32]) -> usize
    requires { Codes codes.now }
    ensures value { result ≡ length (numbers f codes.now) }
    ensures upper_bound { result ≤ 6 * length codes.now }
{
    let mut k: usize = 0;
    for code in codes {
        k += number_len(f, *code) as usize;
    }
    k
}

// How many bytes stand beside the literals.
fn frames_len(f: Format, kinds: &[u8]) -> usize
    requires { length kinds.now < 1152921504606846976 }
    ensures value { result ≡ frames f kinds.now }
    ensures upper_bound { result ≤ 4 * length kinds.now }
{
    let mut k: usize = 0;
    for kind in kinds {
        k += open_len(f, kind_in(*kind)) + end_len(f);
    }
    k
}

// Whether the proof fits in `room` bytes. A literal takes at most six and a step four more: where there is as much room, none is counted.
pub(crate) fn proof_fits(f: Format, codes: &[u32], ends: &[u64], kinds: &[u8], room: usize) -> bool
    requires { Listed codes.now ends.now kinds.now }
    ensures { result ≡ leb (length (encode f (listed codes.now 0 ends.now kinds.now))) room }
{
    6 * codes.len() + 4 * ends.len() <= room || numbers_len(f, codes) + frames_len(f, kinds) <= room
}

// Writes all steps from the start on, and gives the place after them.
pub(crate) fn put_proof(
    f: Format,
    codes: &[u32],
    ends: &[u64],
    kinds: &[u8],
    out: &mut [u8],
) -> usize
    requires listed { Listed codes.now ends.now kinds.now }
    requires kinds_in_bounds { length (encode f (listed codes.now 0 ends.now kinds.now)) ≤ length out.old }
    ensures value { result ≡ length (encode f (listed codes.now 0 ends.now kinds.now)) }
    ensures fills { Fills (change out.old out.new) 0 (encode f (listed codes.now 0 ends.now kinds.now)) }
{
    let mut a: usize = 0;
    let mut at: usize = 0;
    for (i, end) in ends.iter().enumerate() {
        let b = *end as usize;
        at = put_step(f, kind_in(kinds[i]), &codes[a..b], out, at);
        a = b;
    }
    at
}
