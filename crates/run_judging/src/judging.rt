ghost use Rattle.std.specs.Prelude.{◌≡◌, ◌↔◌, ◌||◌, IfOk, IsTrue, not};
ghost use Rattle.aux_parties.specs.Auxiliaries.{is_auxiliary};
ghost use Rattle.sv_core.specs.Core.{ArePeople};
ghost use Rattle.sv_events.specs.Entry.{plain_entry};
ghost use Rattle.sv_rules.specs.Entries.{has_left, is_full, is_leave};
ghost use Rattle.sv_rules.specs.Journal.{journal_of};
ghost use Rattle.sv_rules.specs.Legal.{IsLegal, is_user};
ghost use Rattle.run_judging.specs.FirstIllegal.{IsFirstIllegal};
ghost use Rattle.run_judging.specs.Judged.{Judged};

use crate::making::{is_user, make};
use crate::same::is_newest;
use apl_arrays::WantOfMemory;
use aux_parties::is_auxiliary;
use std::alloc::Global;
use sv_core::Core;
use sv_events::Entry;
use sv_rules::is_leave;

// Whether the party is a user or an auxiliary and has not left, and there is room for the act.
fn may_act(core: &Core, users: &[u32], entry: &Entry) -> bool
    ensures { IsTrue result ↔ (IsTrue (is_user users.now entry.now.party || is_auxiliary entry.now.party) × IsTrue (not (has_left core.now.journal entry.now.party))
        × IsTrue (is_leave entry.now.act || not (is_full core.now.journal))) }
{
    (is_user(users, entry.party) || is_auxiliary(entry.party))
        && !core.has_left(entry.party)
        && (is_leave(&entry.act) || !core.is_full())
}

// Whether the party of an entry may act, and does what the entry says.
fn makes(core: &mut Core, users: &[u32], entry: &Entry) -> Result<bool, WantOfMemory>
    requires legal { IsLegal core.old.users core.old.journal }
    requires users { users.now ≡ core.old.users }
    requires may { IsTrue (is_user users.now entry.now.party || is_auxiliary entry.now.party) × IsTrue (not (has_left core.old.journal entry.now.party))
        × IsTrue (is_leave entry.now.act || not (is_full core.old.journal)) }
    ensures { IfOk result (λ may. Judged core.old (plain_entry entry.now) may core.new) }
{
    let made = make(core, users, entry)?;
    if made {
        Ok(is_newest(core.journal(), entry))
    } else {
        Ok(false)
    }
}

// Whether an entry may follow the journal of a processor, which has it then.
fn follows(core: &mut Core, users: &[u32], entry: &Entry) -> Result<bool, WantOfMemory>
    requires users { users.now ≡ core.old.users }
    ensures judged { IfOk result (λ may. Judged core.old (plain_entry entry.now) may core.new) }
    ensures legal { IsLegal core.old.users core.old.journal }
{
    core.journal();
    if may_act(core, users, entry) {
        makes(core, users, entry)
    } else {
        Ok(false)
    }
}

/// The place, from 1, of the first of some entries that may not follow those before it, where one may not: the party is no user of
/// these and no auxiliary, has left, or may not make this act; or answer or pairs are not those of the act; or a wait is given up
/// while somebody can go on. It goes over the entries once. It takes memory for what a processor keeps of them.
pub fn first_illegal(
    alloc: Global,
    users: &[u32],
    entries: &[Entry],
) -> Result<Option<u64>, WantOfMemory>
    requires { ArePeople users.now }
    ensures { IfOk result (λ at. IsFirstIllegal users.now (journal_of entries.now) at) }
{
    let mut core = Core::new(alloc, users)?;
    for i in 0..entries.len() {
        let may = follows(&mut core, users, &entries[i])?;
        if !may {
            return Ok(Some(i as u64 + 1));
        }
    }
    core.journal();
    Ok(None)
}
