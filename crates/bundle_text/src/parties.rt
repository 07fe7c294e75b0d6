ghost use Rattle.std.specs.Prelude.{◌≡◌, ◌==◌, map};
ghost use Rattle.std.specs.List.{list_all, list_any};
ghost use Rattle.aux_parties.specs.Auxiliaries.{has_row};
ghost use Rattle.bundle_text.specs.Rules.{is_party};
ghost use Rattle.bundle_text.specs.User.{plain_user};

use crate::user::BundleUser;
use aux_parties::{AUXILIARIES, AuxiliaryRow};

// Whether a number is that of a user.
fn is_user(users: &[BundleUser], number: u64) -> bool
    ensures { result ≡ list_any (λ user. user.number == number) (map plain_user users.now) }
{
    users.iter().any(|user| u64::from(user.number) == number)
}

// Whether one of these rows is that of the party with this number.
fn has_row(rows: &[AuxiliaryRow], number: u64) -> bool
    ensures { result ≡ has_row rows.now number }
{
    rows.iter().any(|row| u64::from(row.party) == number)
}

// Whether a number is that of a party.
fn is_party(users: &[BundleUser], number: u64) -> bool
    ensures { result ≡ is_party (map plain_user users.now) number }
{
    has_row(&AUXILIARIES, number) || is_user(users, number)
}

/// Whether each number is that of a party: of an auxiliary or of one of the users.
pub fn are_parties(users: &[BundleUser], numbers: &[u64]) -> bool
    ensures { result ≡ list_all (is_party (map plain_user users.now)) numbers.now }
{
    numbers.iter().all(|number| is_party(users, *number))
}
