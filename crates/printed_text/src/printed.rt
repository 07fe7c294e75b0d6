ghost use Rattle.std.specs.Prelude.{◌≡◌, map};
ghost use Rattle.sv_events.specs.Entry.{plain_entry};
ghost use Rattle.printed_text.specs.Printed.{plain_printed};

use apl_arrays::{LineList, List};
use std::marker::Model;
use sv_events::{Entry, Journal};

/// What a user saw, as it was printed.
#[derive(Debug, Drop)]
pub struct PrintedTranscript {
    pub user: u32,
    pub lines: LineList,
}

/// What an output has: what its users saw, and the journal.
#[derive(Debug, Drop)]
pub struct PrintedParts {
    pub transcripts: List<PrintedTranscript>,
    pub journal: Journal,
}

/// What an output tells: what its users saw, and the journal with its oldest entry first. It is seen as plain data.
#[derive(Debug, Drop)]
pub struct Printed {
    parts: PrintedParts,
}

impl Model for Printed {
    ghost use Rattle.std.specs.Prelude.{map};
    ghost use Rattle.printed_text.specs.Printed.{PlainPrinted, plain_printed};

    ghost Value = { PlainPrinted };

    ghost view = { λ p. record { transcripts = map plain_printed p.parts.transcripts.items; journal = p.parts.journal.items } };
}

impl Printed {
    // What these parts tell.
    pub(crate) fn of_parts(parts: PrintedParts) -> Printed
        ensures { result ≡ record { transcripts = map plain_printed parts.transcripts.items; journal = parts.journal.items } }
    {
        Printed { parts }
    }

    /// What the users saw, in their order.
    pub fn transcripts(&self) -> &[PrintedTranscript]
        ensures { map plain_printed result.now ≡ self.now.transcripts }
    {
        self.parts.transcripts.as_slice()
    }

    /// The entries, oldest first.
    pub fn journal(&self) -> &[Entry]
        ensures { map plain_entry result.now ≡ self.now.journal }
    {
        self.parts.journal.as_slice()
    }

    /// All that it has.
    pub fn into_parts(self) -> PrintedParts
        ensures transcripts { map plain_printed result.transcripts.items ≡ self.transcripts }
        ensures journal { result.journal.items ≡ self.journal }
    {
        self.parts
    }
}
