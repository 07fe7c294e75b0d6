ghost use Rattle.std.specs.Prelude.{◌≡◌, ◌==◌, ℕ, [], IfOk, nat_eq, option_map, if◌then◌else◌};
ghost use Rattle.std.specs.HashMap.{get};
ghost use Rattle.sv_kept.specs.Member.{HasMembers, noted};

use apl_arrays::WantOfMemory;
use std::alloc::Global;
use std::collections::HashMap;

/// What is kept of a user: whether it has left, and the place of its last entry, where this is held.
#[derive(Clone, Copy, Debug, PartialEq, Eq)]
pub struct Member {
    pub has_left: bool,
    pub waiting: Option<u64>,
}

/// What is kept of each user, found at once by its number, however many they are.
pub type Members = HashMap<u32, Member>;

/// What is kept of users that have done nothing. It takes memory for these.
pub fn members_of(alloc: Global, users: &[u32]) -> Result<Members, WantOfMemory>
    ensures { IfOk result (λ members. HasMembers [] users.now members) }
{
    let mut members = HashMap::with_capacity(alloc, users.len())?;
    for user in users {
        members.insert(
            *user,
            Member {
                has_left: false,
                waiting: None,
            },
        )?;
    }
    Ok(members)
}

/// Notes an entry of a party, if it is a user: it leaves by it or not, and waits since or not.
pub fn note(members: &mut Members, party: u32, leaves: bool, waiting: Option<u64>)
    ensures { (user : ℕ) → get nat_eq members.new user
        ≡ (if party == user then option_map (noted leaves waiting) (get nat_eq members.old user) else get nat_eq members.old user) }
{
    match members.get_mut(&party) {
        Some(member) => *member = noted(leaves, waiting, *member),
        None => (),
    }
}

fn noted(leaves: bool, waiting: Option<u64>, member: Member) -> Member
    ensures { result ≡ noted leaves waiting member }
{
    Member {
        has_left: leaves || member.has_left,
        waiting,
    }
}
