ghost use Rattle.std.specs.Prelude.{◌≡◌, true, false, not, find, nat_lt, All, Contains, IsTrue, Some, is_some, unwrap_or};
ghost use Rattle.std.specs.List.{list_all, list_any};
ghost use Rattle.std.specs.Option.{option_copied, option_map_or};
ghost use Rattle.sv_core.specs.Due.{request_due, customer_of, is_due, is_due_on, is_open, is_reply, is_service, offer_to_serve, work_among};
ghost use Rattle.sv_kept.specs.Member.{waiting_at};
ghost use Rattle.sv_rules.specs.Coupling.{coupling_now, open_to, partner_at, partner_in};
ghost use Rattle.sv_rules.specs.Entries.{has_left};
ghost use Rattle.sv_rules.specs.Refused.{hold_of, hold_on, refused, still_refused};
ghost use Rattle.sv_rules.specs.Standing.{offer_count, own_offer, standing};
ghost use Rattle.sv_rules.specs.declared.coupling.Coupling.{Coupling};
ghost use Rattle.sv_rules.specs.declared.standing.Standing.{Standing};
ghost use Rattle.aux_parties.specs.Auxiliaries.{is_auxiliary, most_counters};
ghost use Rattle.sv_rules.specs.Work.{first_coupled, has_unseen, is_halted, is_stuck, lacks_control, owes_reply, rests, to_counter, work_due, work_of};

use crate::Core;
use apl_arrays::Array;
use aux_parties::{AUXILIARIES, AuxiliaryRow, most_counters};
use sv_events::{Accessing, Act, Work};
use sv_rules::{Coupling, Standing};

impl Core {
    /// The work of an auxiliary: none where the journal is full.
    pub fn work_of(&self, party: u32) -> Work
        requires { IsTrue (is_auxiliary party) }
        ensures { result ≡ work_of self.now.journal party }
    {
        if self.is_full() {
            return Work::Idle;
        }
        self.work_due(party)
    }

    fn work_due(&self, party: u32) -> Work
        requires { IsTrue (is_auxiliary party) }
        ensures { result ≡ unwrap_or (work_due self.now.journal party) Work.Idle }
    {
        self.work_among(party, self.own_offers(party))
    }

    // The work that is due of an auxiliary, by the offers of its own, which are looked up once for all that may be due.
    fn work_among(&self, party: u32, own: &[Standing]) -> Work
        requires stand { (offer : Standing) → Contains own.now offer → Contains (standing self.now.journal) offer }
        requires own { (offer : Standing) → Contains own.now offer → IsTrue (is_auxiliary offer.party) }
        ensures { result ≡ unwrap_or (work_among self.now.journal party own.now) Work.Idle }
    {
        if let Some(offer) = self.first_open_among(own) {
            return Work::Retract(offer.local);
        }
        if let Some(offer) = self.first_coupled_among(own, Due::Control) {
            return Work::Control(offer.local);
        }
        if let Some(offer) = self.first_coupled_among(own, Due::Reply) {
            return Work::Reply(offer.local);
        }
        if let Some(offer) = &self.to_counter(party) {
            return Work::Counter {
                to: offer.party,
                surrogate: offer.surrogate,
            };
        }
        if let Some(offer) = self.first_coupled_among(own, Due::Use) {
            return Work::Use(offer.local);
        }
        Work::Idle
    }

    // The open offer of the lowest place among some.
    fn first_open_among<'a>(&self, offers: &'a [Standing]) -> Option<&'a Standing>
        ensures { option_copied result ≡ find (is_open self.now.journal) offers.now }
    {
        for offer in offers {
            if self.is_open(offer) {
                return Some(offer);
            }
        }
        None
    }

    fn is_open(&self, offer: &Standing) -> bool
        ensures { result ≡ is_open self.now.journal offer.now }
    {
        !self.is_coupled(offer.place)
    }

    // The coupled offer of a party of the lowest place on which this is due.
    fn first_coupled(&self, party: u32, due: Due) -> Option<&Standing>
        requires { IsTrue (is_auxiliary party) }
        ensures { option_copied result ≡ first_coupled self.now.journal (is_due self.now.journal due) party }
    {
        self.first_due(self.own_offers(party), due)
    }

    // The first of some offers that is coupled and on which this is due. Mostly there are none, and then nothing is asked.
    fn first_coupled_among<'a>(&self, offers: &'a [Standing], due: Due) -> Option<&'a Standing>
        requires stand { (offer : Standing) → Contains offers.now offer → Contains (standing self.now.journal) offer }
        requires own { (offer : Standing) → Contains offers.now offer → IsTrue (is_auxiliary offer.party) }
        ensures { option_copied result ≡ find (is_due_on self.now.journal due) offers.now }
    {
        if offers.is_empty() {
            None
        } else {
            self.first_due(offers, due)
        }
    }

    // The same, by going over them.
    fn first_due<'a>(&self, offers: &'a [Standing], due: Due) -> Option<&'a Standing>
        requires stand { (offer : Standing) → Contains offers.now offer → Contains (standing self.now.journal) offer }
        requires own { (offer : Standing) → Contains offers.now offer → IsTrue (is_auxiliary offer.party) }
        ensures { option_copied result ≡ find (is_due_on self.now.journal due) offers.now }
    {
        for offer in offers {
            if self.is_due(offer, due) {
                return Some(offer);
            }
        }
        None
    }

    // Whether the offer is coupled, and this is due on it. What its cell tells is asked before its coupling.
    fn is_due(&self, offer: &Standing, due: Due) -> bool
        requires stands { Contains (standing self.now.journal) offer.now }
        requires own { IsTrue (is_auxiliary offer.now.party) }
        ensures { result ≡ is_due_on self.now.journal due offer.now }
    {
        match due {
            Due::Control => self.lacks_control(offer) && self.is_coupled(offer.place),
            Due::Reply => self.owes_reply(offer) && self.is_coupled(offer.place),
            Due::Use => self.has_unseen_on(offer),
        }
    }

    // Whether its party set no control on the offer since it was coupled, if it is.
    fn lacks_control(&self, offer: &Standing) -> bool
        requires stands { Contains (standing self.now.journal) offer.now }
        requires own { IsTrue (is_auxiliary offer.now.party) }
        ensures { (coupling : Coupling) → coupling_now self.now.journal offer.now.place ≡ Some coupling → result ≡ lacks_control self.now.journal offer.now coupling }
    {
        match self.cells.get(offer.place) {
            None => false,
            Some(cell) => cell.lacks_control,
        }
    }

    // Whether its party got a value by its last access on the offer since it was coupled, if it is.
    fn owes_reply(&self, offer: &Standing) -> bool
        requires stands { Contains (standing self.now.journal) offer.now }
        requires own { IsTrue (is_auxiliary offer.now.party) }
        ensures { (coupling : Coupling) → coupling_now self.now.journal offer.now.place ≡ Some coupling → result ≡ owes_reply self.now.journal offer.now coupling }
    {
        match self.cells.get(offer.place) {
            None => false,
            Some(cell) => cell.owes_reply,
        }
    }

    // Whether the offer is coupled, and a set of the partner is unseen.
    fn has_unseen_on(&self, offer: &Standing) -> bool
        requires { Contains (standing self.now.journal) offer.now }
        ensures { result ≡ option_map_or (has_unseen self.now.journal offer.now) (coupling_now self.now.journal offer.now.place) false }
    {
        match &self.coupling_on(offer) {
            None => false,
            Some(coupling) => self.has_unseen(offer, coupling),
        }
    }

    // The open offer that an auxiliary is to counter: its own are counted only where there is one.
    fn to_counter(&self, party: u32) -> Option<Standing>
        ensures { result ≡ to_counter self.now.journal party }
    {
        match self.oldest_to(party) {
            None => None,
            Some(offer) => {
                if self.may_counter(party) {
                    Some(offer)
                } else {
                    None
                }
            }
        }
    }

    // Whether an auxiliary may have one offer more.
    fn may_counter(&self, party: u32) -> bool
        ensures { result ≡ nat_lt (offer_count (standing self.now.journal) party) (most_counters party) }
    {
        self.offers.count(party) < most_counters(party)
    }

    // The open offer of the lowest place that is made to a party by its number.
    fn oldest_to(&self, party: u32) -> Option<Standing>
        ensures { result ≡ find (λ _. true) (open_to self.now.journal party) }
    {
        self.offers.oldest_to(party)
    }

    /// The value that an auxiliary is to reply to, where its work is a reply.
    pub fn request(&self, party: u32) -> &Array
        requires auxiliary { IsTrue (is_auxiliary party) }
        requires reply { IsTrue (is_reply (work_of self.now.journal party)) }
        ensures { request_due self.now.journal party ≡ Some result.now }
    {
        // It is legal, so that a reply is owed to a value that is known.
        self.journal();
        match self.known_to_reply(party) {
            None => unreachable!(),
            Some(value) => value,
        }
    }

    // What is known of the first offer on which an auxiliary is to reply, if there is one.
    fn known_to_reply(&self, party: u32) -> Option<&Array>
        requires { IsTrue (is_auxiliary party) }
        ensures { option_copied result ≡ request_due self.now.journal party }
    {
        match self.first_coupled(party, Due::Reply) {
            None => None,
            Some(offer) => self.known(offer),
        }
    }

    /// The party of the other offer of the coupling on which an auxiliary is to set a control, or to reply, where its
    /// work is one of these.
    pub fn customer(&self, party: u32) -> u32
        requires auxiliary { IsTrue (is_auxiliary party) }
        requires serves { IsTrue (is_service (work_of self.now.journal party)) }
        ensures { customer_of self.now.journal party ≡ Some result }
    {
        match self.partner_served(party) {
            None => unreachable!(),
            Some(customer) => customer,
        }
    }

    // The party of the other offer of that coupling, if there is one.
    fn partner_served(&self, party: u32) -> Option<u32>
        requires { IsTrue (is_auxiliary party) }
        ensures { result ≡ customer_of self.now.journal party }
    {
        match self.served_by(party) {
            None => None,
            Some(offer) => self.partner(offer.place),
        }
    }

    // The coupled offer on which an auxiliary is to set a control, else the one on which it is to reply.
    fn served_by(&self, party: u32) -> Option<&Standing>
        requires { IsTrue (is_auxiliary party) }
        ensures { option_copied result ≡ offer_to_serve self.now.journal party }
    {
        match self.first_coupled(party, Due::Control) {
            None => self.first_coupled(party, Due::Reply),
            Some(offer) => Some(offer),
        }
    }

    // The party of the other offer of the coupling of the offer at a place.
    fn partner(&self, place: u64) -> Option<u32>
        ensures { result ≡ partner_at self.now.journal place }
    {
        match self.coupling(place) {
            None => None,
            Some(coupling) => Some(partner_of(&coupling, place)),
        }
    }

    // Whether something refuses the act that a party waits for now.
    pub(crate) fn is_refused_now(&self, party: u32) -> bool
        ensures { result ≡ is_some (still_refused self.now.journal party) }
    {
        self.is_refused_since(party, self.member(party).waiting)
    }

    // The same where it is known at which entry the party waits, if it waits.
    fn is_refused_since(&self, party: u32, waiting: Option<u64>) -> bool
        requires { waiting ≡ waiting_at self.now.journal party }
        ensures { result ≡ is_some (still_refused self.now.journal party) }
    {
        match self.awaited_since(party, waiting) {
            None => false,
            Some(act) => self.is_refused(party, act),
        }
    }

    fn is_refused(&self, party: u32, act: &Act) -> bool
        ensures { result ≡ is_some (refused self.now.journal party act.now) }
    {
        self.refuses(party, act.row().accesses)
    }

    // Whether something refuses an access of a party, if it makes one.
    fn refuses(&self, party: u32, access: Option<Accessing>) -> bool
        ensures { result ≡ is_some (hold_of self.now.journal party access) }
    {
        match access {
            None => false,
            Some(access) => self.is_held(party, access),
        }
    }

    // Whether something refuses this access of a party.
    fn is_held(&self, party: u32, access: Accessing) -> bool
        ensures { result ≡ is_some (hold_on self.now.journal access.kind (own_offer (standing self.now.journal) party access.local)) }
    {
        match self.own(party, &access.local) {
            None => false,
            Some(offer) => {
                let coupling = self.coupling_on(&offer);
                self.hold_on(&offer, &coupling, access.kind).is_some()
            }
        }
    }

    // Whether a user has left, or waits and is refused now.
    fn is_halted(&self, user: u32) -> bool
        ensures { result ≡ is_halted self.now.journal user }
    {
        let member = self.member(user);
        member.has_left || self.is_refused_since(user, member.waiting)
    }

    /// Whether nobody can go on: some user stays, whoever stays waits and is refused still, and no auxiliary has work. It
    /// looks once at what each user waits for.
    pub fn is_stuck(&self) -> bool
        ensures { result ≡ is_stuck self.now.users self.now.journal }
    {
        self.some_stays() && self.all_halt() && self.all_rest(&AUXILIARIES)
    }

    // Whether some user has not left.
    fn some_stays(&self) -> bool
        ensures { result ≡ list_any (λ user. not (has_left self.now.journal user)) self.now.users }
    {
        self.log.users().iter().any(|user| !self.has_left(*user))
    }

    // Whether all users have left, or wait and are refused now.
    fn all_halt(&self) -> bool
        ensures { result ≡ list_all (is_halted self.now.journal) self.now.users }
    {
        self.halt(self.log.users())
    }

    fn halt(&self, users: &[u32]) -> bool
        ensures { result ≡ list_all (is_halted self.now.journal) users.now }
    {
        for user in users {
            if !self.is_halted(*user) {
                return false;
            }
        }
        true
    }

    // Whether the parties of these rows have no work.
    fn all_rest(&self, rows: &[AuxiliaryRow]) -> bool
        requires { All (λ row. IsTrue (is_auxiliary row.party)) rows.now }
        ensures { result ≡ list_all (rests self.now.journal) rows.now }
    {
        for row in rows {
            if !self.rests(row) {
                return false;
            }
        }
        true
    }

    // Whether the party of a row has no work.
    fn rests(&self, row: &AuxiliaryRow) -> bool
        requires { IsTrue (is_auxiliary row.now.party) }
        ensures { result ≡ rests self.now.journal row.now }
    {
        matches!(self.work_of(row.party), Work::Idle)
    }
}

// The party of the other offer of a coupling.
fn partner_of(coupling: &Coupling, place: u64) -> u32
    ensures { result ≡ partner_in place coupling.now }
{
    if coupling.a.place == place {
        coupling.b.party
    } else {
        coupling.a.party
    }
}

/// What an auxiliary may have to do on a coupled offer.
#[derive(Clone, Copy, Debug, PartialEq, Eq)]
pub enum Due {
    Control,
    Reply,
    Use,
}
