use sv_events::{Act, Answer, Entry};

/// The greatest number of an auxiliary party.
const LAST_AUXILIARY: u32 = 1000;

/// How often entries of a journal came to what only turns that meet come to: replies of auxiliaries, accesses that were held and
/// that were abandoned, and acts that took an offer away and coupled the one that it left anew.
#[derive(Clone, Copy, Debug)]
pub struct Counts {
    pub replies: u64,
    pub held: u64,
    pub abandoned: u64,
    pub matched: u64,
}

// A count, and one more where there is one.
fn counted(count: u64, is_one: bool) -> u64 {
    if is_one {
        count.saturating_add(1)
    } else {
        count
    }
}

impl Counts {
    /// Those of no entry.
    pub fn new() -> Self {
        Counts {
            replies: 0,
            held: 0,
            abandoned: 0,
            matched: 0,
        }
    }

    /// Counts an entry.
    pub fn count(&mut self, entry: &Entry) {
        match &entry.act {
            Act::Set(_, _) => self.replies = counted(self.replies, entry.party <= LAST_AUXILIARY),
            Act::Retract(_) | Act::Leave => {
                self.matched = counted(self.matched, !entry.made.as_slice().is_empty());
            }
            _ => {}
        }
        match &entry.answer {
            Answer::Held(_) => self.held = counted(self.held, true),
            Answer::Abandoned(_) => self.abandoned = counted(self.abandoned, true),
            _ => {}
        }
    }

    /// Counts the entries of another journal too.
    pub fn add(&mut self, other: Counts) {
        self.replies = self.replies.saturating_add(other.replies);
        self.held = self.held.saturating_add(other.held);
        self.abandoned = self.abandoned.saturating_add(other.abandoned);
        self.matched = self.matched.saturating_add(other.matched);
    }

    /// Whether there is one of each.
    pub fn have_all(&self) -> bool {
        self.replies > 0 && self.held > 0 && self.abandoned > 0 && self.matched > 0
    }
}
