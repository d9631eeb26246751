// The answer of the counts of distinct users.
ghost use Rattle.std.specs.Prelude.{◌≡◌, [], ◌∷◌};
ghost use Rattle.distinct.specs.Users.{users_counted};
ghost use Rattle.numbers.specs.Surface.{plain};

use distinct::UsersCounted;
use scope::Refusal;

// How many users are to be mapped, and how many to be granted a solver index.
#[repr(C)]
#[derive(Clone, Copy)]
pub struct HzUsers {
    pub refusal: u32,
    pub users: u32,
    pub grants: u32,
}

pub fn users_out(r: Result<UsersCounted, Refusal>) -> HzUsers
    ensures { result.refusal ∷ result.users ∷ result.grants ∷ [] ≡ plain 2 (users_counted r) }
{
    match r {
        Ok(k) => HzUsers {
            refusal: 0,
            users: k.users,
            grants: k.grants,
        },
        Err(e) => HzUsers {
            refusal: u32::from(e),
            users: 0,
            grants: 0,
        },
    }
}
