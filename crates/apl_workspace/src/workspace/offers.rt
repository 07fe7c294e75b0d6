ghost use Rattle.std.specs.Prelude.{◌≡◌, ◌≤◌, true, false, Some, IsOk, IsSome, OnOk, OnErr, IfErr, filter, vec_len};
ghost use Rattle.apl_workspace.specs.Limits.{most_weight};
ghost use Rattle.apl_workspace.specs.Meaning.{is_function_meaning, meaning_in};
ghost use Rattle.apl_workspace.specs.Workspace.{IsFull, IsTooHeavy, global_in, is_addressee, is_of_another, is_shared, marked, takes_offer, unmarked, unmarked_with_copy, with_global, workspace_weight};

use crate::limits::WEIGHT_LIMIT;
use crate::room::reserve_one;
use crate::{Meaning, Remake, Workspace};
use apl_arrays::{Array, Fail, Name, OFFER_LIMIT, Report};

impl Workspace {
    /// Marks a global name as shared with its own copy of the value, and lists its offer last. A name that was shared
    /// before keeps the offer that it has, and a list of 64 offers takes no more. `WsFull` where the workspace would
    /// weigh more than it may, also where there is no memory; it leaves the workspace as it was, and so does
    /// `WantOfMemory`. It takes memory for a name that is not there yet, and for an offer that is listed.
    pub fn mark(
        &mut self,
        name: &Name,
        value: Option<Array>,
        surrogate: Name,
        to: u32,
    ) -> Result<(), Fail>
        requires no_function { is_function_meaning (global_in self.old name.now) ≡ false }
        requires addressee { is_addressee to ≡ true }
        ensures ok { OnOk result (self.new ≡ marked self.old (record { local = name.now; surrogate = surrogate; to = to }) value) }
        ensures fits { OnOk result (workspace_weight (with_global self.old name.now (Meaning.Shared value)) ≤ most_weight) }
        ensures err { OnErr result (self.new ≡ self.old) }
        ensures full { IfErr result (IsFull (with_global self.old name.now (Meaning.Shared value))) }
        ensures there { takes_offer self.old name.now ≡ false → IsSome (meaning_in self.old.globals name.now) → IfErr result (λ fail. fail ≡ Fail.Report Report.WsFull) }
    {
        let local = *name;
        let shared = Meaning::Shared(value);
        let most = WEIGHT_LIMIT - self.frames_weight;
        if !self.takes_offer(name) {
            return self.globals.put(local, shared, most);
        }
        if !self.globals.fits(name, shared.weight(), most) {
            drop(shared);
            return Err(Fail::Report(Report::WsFull));
        }
        reserve_one(&mut self.offers)?;
        self.globals.put(local, shared, most)?;
        self.offers.push_reserved(Remake {
            local,
            surrogate,
            to,
        });
        Ok(())
    }

    /// Whether an offer of the name is listed: the name is not shared yet, and fewer than 64 offers are listed.
    fn takes_offer(&self, name: &Name) -> bool
        ensures { result ≡ takes_offer self.now name.now }
    {
        !self.is_shared(name) && self.offers.len() < OFFER_LIMIT
    }

    /// Takes the mark of a shared name away, and its offer out of the list. The name then has the value handed in, or is
    /// not there where none is; where the workspace would weigh more than it may with that value, the name has its own
    /// copy.
    pub fn unmark(&mut self, name: &Name, value: Option<Array>)
        requires { is_shared self.old name.now ≡ true }
        ensures { self.new ≡ unmarked self.old name.now value }
    {
        let most = WEIGHT_LIMIT - self.frames_weight;
        self.globals.unshare(name, value, most);
        unlist(&mut self.offers, name);
    }

    /// Takes the mark of a shared name away, and its offer out of the list. The name then has its own copy as its value, or
    /// is not there where it has none.
    pub fn unmark_with_copy(&mut self, name: &Name)
        requires { is_shared self.old name.now ≡ true }
        ensures { self.new ≡ unmarked_with_copy self.old name.now }
    {
        self.globals.keep_copy(name);
        unlist(&mut self.offers, name);
    }

    /// A shared variable keeps this value as its copy. `WsFull` where the workspace would weigh more than it may; it
    /// leaves the workspace as it was. It takes no memory.
    pub fn renew(&mut self, name: &Name, value: Array) -> Result<(), Fail>
        requires { is_shared self.old name.now ≡ true }
        ensures ok { OnOk result (self.new ≡ with_global self.old name.now (Meaning.Shared (Some value))) }
        ensures fits { OnOk result (workspace_weight (with_global self.old name.now (Meaning.Shared (Some value))) ≤ most_weight) }
        ensures err { OnErr result (self.new ≡ self.old) }
        ensures full { IfErr result (IsTooHeavy (with_global self.old name.now (Meaning.Shared (Some value)))) }
        ensures granted { workspace_weight (with_global self.old name.now (Meaning.Shared (Some value))) ≤ most_weight → IsOk result }
    {
        self.put_global(*name, Meaning::Shared(Some(value)))
    }
}

/// Takes the offers of a name out of a list.
fn unlist(offers: &mut Vec<Remake>, name: &Name)
    ensures items { offers.new.items ≡ filter (is_of_another name.now) offers.old.items }
    ensures len { vec_len offers.new ≤ vec_len offers.old }
{
    offers.retain(|offer| offer.local != *name);
}
