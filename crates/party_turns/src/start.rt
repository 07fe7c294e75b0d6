ghost use Rattle.std.specs.Prelude.{◌≡◌, ◌+◌, ◌≤◌, ◌++◌, [], false, All, IfOk, length, map, vec_capacity, vec_len};
ghost use Rattle.bundle_text.specs.User.{plain_user};
ghost use Rattle.sv_core.specs.Core.{ArePeople};
ghost use Rattle.replay_rules.specs.Turns.{newcomer};
ghost use Rattle.session_rules.specs.Run.{Dealings};
ghost use Rattle.party_turns.specs.Participants.{users_of};
ghost use Rattle.party_turns.specs.Sittings.{newly};
ghost use Rattle.party_turns.specs.SoFar.{IsSeated, user_of};

use crate::seat::UserSeat;
use apl_arrays::WantOfMemory;
use apl_io::Shelf;
use apl_session::Session;
use bundle_text::BundleUser;
use std::alloc::Global;
use sv_core::Core;

/// The numbers of these users. It takes memory for them.
pub fn numbers_of(alloc: Global, users: &[BundleUser]) -> Result<Vec<u32>, WantOfMemory>
    ensures { IfOk result (λ numbers. numbers.items ≡ map (λ user. user.number) users.now) }
{
    let mut numbers = Vec::new(alloc);
    for user in users {
        numbers.push(user.number)?;
    }
    Ok(numbers)
}

/// The processor of these users. It takes memory for their numbers and for the room of their leaves.
pub fn core_of(alloc: Global, users: &[BundleUser]) -> Result<Core, WantOfMemory>
    requires people { ArePeople (map (λ user. user.number) users.now) }
    ensures { IfOk result (λ core. core ≡ record { users = map (λ user. user.number) users.now; journal = [] }) }
{
    Core::new(alloc, &numbers_of(alloc, users)?)
}

/// A list of seats that has room for these users. It takes memory for it.
pub fn room_for<K>(alloc: Global, users: &[BundleUser]) -> Result<Vec<UserSeat<K>>, WantOfMemory>
    ensures empty { IfOk result (λ seats. seats.items ≡ []) }
    ensures room { IfOk result (λ seats. length users.now ≤ vec_capacity seats) }
{
    Ok(Vec::with_capacity(alloc, users.len())?)
}

/// A seat for each user, in their order, in a list that has room for them; the k-th user takes the k-th shelf, and the
/// shelves behind these are left.
pub fn fill<K: Shelf>(
    alloc: Global,
    users: Vec<BundleUser>,
    seats: Vec<UserSeat<K>>,
    shelves: &mut Vec<K>,
) -> Vec<UserSeat<K>>
    requires empty { seats.items ≡ [] }
    requires room { vec_len users ≤ vec_capacity seats }
    requires shelves { vec_len users ≤ vec_len shelves.old }
    ensures users { map (λ seat. user_of seat.session) result.items ≡ map plain_user users.items }
    ensures newcomers { (final : Dealings) → users_of final result.items ≡ map (newcomer final) (map plain_user users.items) }
    ensures seated { All (λ seat. IsSeated K.told K.faults [] (newly seat)) result.items }
    ensures here { All (λ seat. seat.is_lost ≡ false) result.items }
    ensures shelves { map (λ seat. seat.session.shelf) result.items ++ shelves.new.items ≡ shelves.old.items }
    ensures room { vec_len result + vec_len shelves.new ≤ vec_capacity shelves.new }
{
    let mut seats = seats;
    for user in users {
        let shelf = shelves.remove(0);
        seats.push_reserved(UserSeat::new(Session::new(alloc, user.number, user.lines, shelf)));
    }
    seats
}
