// The answer of Lookup.
ghost use Rattle.std.specs.Prelude.{◌≡◌, [], ◌∷◌, Ok};
ghost use Rattle.scope.specs.declared.Counts.{Counts};
ghost use Rattle.var_map.specs.Answers.{got_user, got_global, got_solver, got_word};
ghost use Rattle.scope.specs.Steps.{flag};
ghost use Rattle.numbers.specs.Surface.{optional};
ghost use Rattle.numbers.specs.Flat.{Numbered};

use scope::{Global, Refusal, Solver, User};

// Whether there is something, and what.
#[repr(C)]
#[derive(Clone, Copy)]
pub struct HzFound {
    pub refusal: u32,
    pub found: bool,
    pub value: u32,
}

const NOTHING: HzFound = HzFound {
    refusal: 0,
    found: false,
    value: 0,
};

fn absent(n: u32) -> HzFound
    ensures { result.refusal ∷ flag result.found ∷ result.value ∷ [] ≡ n ∷ 0 ∷ 0 ∷ [] }
{
    HzFound {
        refusal: n,
        ..NOTHING
    }
}

// Four of them, since one over an `Option<u32>` goes through memory: a lookup in a sound table takes 7.8 ns so, and 2.3 as it is.
pub fn user_told(o: Option<User>) -> HzFound
    ensures { (c : Counts) → Numbered (got_user (Ok o) c) (optional 0) (result.refusal ∷ flag result.found ∷ result.value ∷ []) c }
{
    match o {
        Some(u) => HzFound {
            refusal: 0,
            found: true,
            value: u.0,
        },
        None => NOTHING,
    }
}

pub fn user_out(r: Result<Option<User>, Refusal>) -> HzFound
    ensures { (c : Counts) → Numbered (got_user r c) (optional 0) (result.refusal ∷ flag result.found ∷ result.value ∷ []) c }
{
    match r {
        Ok(o) => user_told(o),
        Err(e) => absent(u32::from(e)),
    }
}

pub fn global_told(o: Option<Global>) -> HzFound
    ensures { (c : Counts) → Numbered (got_global (Ok o) c) (optional 0) (result.refusal ∷ flag result.found ∷ result.value ∷ []) c }
{
    match o {
        Some(g) => HzFound {
            refusal: 0,
            found: true,
            value: g.0,
        },
        None => NOTHING,
    }
}

pub fn global_out(r: Result<Option<Global>, Refusal>) -> HzFound
    ensures { (c : Counts) → Numbered (got_global r c) (optional 0) (result.refusal ∷ flag result.found ∷ result.value ∷ []) c }
{
    match r {
        Ok(o) => global_told(o),
        Err(e) => absent(u32::from(e)),
    }
}

pub fn solver_told(o: Option<Solver>) -> HzFound
    ensures { (c : Counts) → Numbered (got_solver (Ok o) c) (optional 0) (result.refusal ∷ flag result.found ∷ result.value ∷ []) c }
{
    match o {
        Some(s) => HzFound {
            refusal: 0,
            found: true,
            value: s.0,
        },
        None => NOTHING,
    }
}

pub fn solver_out(r: Result<Option<Solver>, Refusal>) -> HzFound
    ensures { (c : Counts) → Numbered (got_solver r c) (optional 0) (result.refusal ∷ flag result.found ∷ result.value ∷ []) c }
{
    match r {
        Ok(o) => solver_told(o),
        Err(e) => absent(u32::from(e)),
    }
}

pub fn word_told(o: Option<u32>) -> HzFound
    ensures { (c : Counts) → Numbered (got_word (Ok o) c) (optional 0) (result.refusal ∷ flag result.found ∷ result.value ∷ []) c }
{
    match o {
        Some(w) => HzFound {
            refusal: 0,
            found: true,
            value: w,
        },
        None => NOTHING,
    }
}

pub fn word_out(r: Result<Option<u32>, Refusal>) -> HzFound
    ensures { (c : Counts) → Numbered (got_word r c) (optional 0) (result.refusal ∷ flag result.found ∷ result.value ∷ []) c }
{
    match r {
        Ok(o) => word_told(o),
        Err(e) => absent(u32::from(e)),
    }
}
