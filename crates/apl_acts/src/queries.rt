ghost use Rattle.std.specs.Prelude.{◌≡◌, ◌||◌, ◌==◌, IfOk, unsigned_abs};
ghost use Rattle.std.specs.List.{list_any};
ghost use Rattle.apl_workspace.specs.Workspace.{PlainWorkspace};
ghost use Rattle.apl_meaning.specs.Queries.{queries, query_faults};
ghost use Rattle.apl_meaning.specs.Sharing.{is_no_addressee};
ghost use Rattle.apl_statements.specs.Interpreter.{PlainInterpreter};
ghost use Rattle.apl_acts.specs.Asking.{Asks, MayBeAsked};
ghost use Rattle.apl_acts.specs.Faults.{plain_faults};

use crate::asking::Asking;
use crate::sharing::{Wrong, is_no_addressee, refuse};
use apl_arrays::{Array, Fail};

/// ⎕SVQ B: the parties with open offers where B is empty, else the names that a party offers. It takes no memory.
pub fn query(b: &Array) -> Result<Asking, Fail>
    ensures may { (w : PlainWorkspace) → IfOk result (MayBeAsked w) }
    ensures asks { (m : PlainInterpreter) → Asks m (queries b.now) result }
{
    refuse(query_wrong(b))?;
    match b.numbers().first() {
        Some(party) => Ok(Asking::Names(party.unsigned_abs() as u32)),
        None => Ok(Asking::Parties),
    }
}

// What is wrong with B.
fn query_wrong(b: &Array) -> Wrong
    ensures { plain_faults result ≡ query_faults b.now }
{
    Wrong {
        rank: b.shape().len() > 1,
        length: b.items().len() > 1,
        domain: names_no_party(b),
        too_large: false,
    }
}

// Whether B is not empty, but holds characters or a number that is no party.
fn names_no_party(b: &Array) -> bool
    ensures { result ≡ (query_faults b.now).bad_domain }
{
    b.items().len() > 0 && (b.is_chars() || has_no_party(b.numbers()))
}

// Whether some number is no party that may be asked about.
fn has_no_party(numbers: &[i64]) -> bool
    ensures { result ≡ list_any (λ number. is_no_addressee number || unsigned_abs number == 0) numbers.now }
{
    numbers.iter().any(|number| is_no_party(*number))
}

// Whether a number is no party that may be asked about.
fn is_no_party(number: i64) -> bool
    ensures { result ≡ (is_no_addressee number || unsigned_abs number == 0) }
{
    number == 0 || is_no_addressee(number)
}
