// The distinct users of a clause.
ghost use Rattle.std.specs.Prelude.{◌≡◌, [], ◌∷◌};
ghost use Rattle.scope.specs.Distinct.{count_named, plain_count, users_by};
ghost use Rattle.numbers.specs.Surface.{plain};

use answers::users::{HzUsers, users_out};

// How many users Pose would map and grant, counted in one pass (3): `users_by (count_named 4096)`.
pub fn hz_users_to_map(mark: u32, gu: &[u32], sg: &[u32], lits: &[u32]) -> HzUsers
    ensures { result.refusal ∷ result.users ∷ result.grants ∷ [] ≡ plain 2 (users_by (count_named 4096) mark gu.now sg.now lits.now) }
{
    let r = distinct::users_to_map(mark, gu, sg, lits);
    users_out(r)
}

// The same, counted plainly (3): `users_by plain_count`.
pub fn hz_users_to_map_plain(mark: u32, gu: &[u32], sg: &[u32], lits: &[u32]) -> HzUsers
    ensures { result.refusal ∷ result.users ∷ result.grants ∷ [] ≡ plain 2 (users_by plain_count mark gu.now sg.now lits.now) }
{
    let r = distinct::users_to_map_plain(mark, gu, sg, lits);
    users_out(r)
}
