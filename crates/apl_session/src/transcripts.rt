ghost use Rattle.std.specs.Prelude.{◌≡◌, ◌+◌, ◌<◌, ◌≤◌, ◌∷◌, [], ◌++◌, IsOk, OnOk, OnErr, map};
ghost use Rattle.apl_arrays.specs.Ascending.{AscendBy};
ghost use Rattle.apl_session.specs.Transcripts.{plain_transcript};

use apl_arrays::{LineList, List, WantOfMemory};
use std::alloc::Global;
use std::marker::Model;

/// What a user saw: the lines as they were read, and what was printed.
#[derive(Debug, Drop)]
pub struct Transcript {
    pub user: u32,
    pub lines: LineList,
}

/// Transcripts, their users ascending. It is seen as users and lines, and the room that is left.
#[derive(Debug, Drop)]
pub struct Transcripts {
    transcripts: List<Transcript>,
}

impl Model for Transcripts {
    ghost use Rattle.std.specs.Prelude.{map};
    ghost use Rattle.apl_arrays.specs.List.{Listed};
    ghost use Rattle.apl_arrays.specs.Ascending.{AscendBy};
    ghost use Rattle.apl_session.specs.Transcripts.{plain_transcript};
    ghost use Rattle.sv_journal.specs.Output.{PlainTranscript};

    ghost Value = { Listed PlainTranscript };

    ghost view = { λ t. record { items = map plain_transcript t.transcripts.items; room = t.transcripts.room } };

    ghost invariant = { λ t. AscendBy (λ transcript. transcript.user) (map plain_transcript t.transcripts.items) };
}

impl Transcripts {
    /// No transcripts.
    pub fn new(alloc: Global) -> Self
        ensures { result.items ≡ [] }
    {
        Transcripts {
            transcripts: List::new(alloc),
        }
    }

    /// The transcripts, their users ascending.
    pub fn as_slice(&self) -> &[Transcript]
        ensures value { map plain_transcript result.now ≡ self.now.items }
        ensures ascending { AscendBy (λ transcript. transcript.user) self.now.items }
    {
        self.transcripts.as_slice()
    }

    /// The transcripts as a `Vec`.
    pub fn into_vec(self) -> Vec<Transcript>
        ensures value { map plain_transcript result.items ≡ self.items }
        ensures ascending { AscendBy (λ transcript. transcript.user) self.items }
    {
        self.transcripts.into_vec()
    }

    /// Makes room for at least so many pushes, and takes memory for it. `WantOfMemory` leaves the list as it was.
    pub fn reserve(&mut self, room: usize) -> Result<(), WantOfMemory>
        ensures items { self.new.items ≡ self.old.items }
        ensures room { OnOk result (room ≤ self.new.room) }
        ensures kept { self.old.room ≤ self.new.room }
        ensures err { OnErr result (self.new ≡ self.old) }
        ensures granted { room ≤ self.old.room → IsOk result }
    {
        self.transcripts.reserve(room)
    }

    /// Adds a transcript at the end, whose user has to come after the others. Where there is room it is granted and
    /// takes no memory, else it takes memory for more. `WantOfMemory` leaves the list as it was.
    pub fn push(&mut self, transcript: Transcript) -> Result<(), WantOfMemory>
        requires { AscendBy (λ transcript. transcript.user) (self.old.items ++ plain_transcript transcript ∷ []) }
        ensures ok { OnOk result (self.new.items ≡ self.old.items ++ plain_transcript transcript ∷ []) }
        ensures err { OnErr result (self.new ≡ self.old) }
        ensures granted { 0 < self.old.room → IsOk result }
        ensures room { 0 < self.old.room → self.new.room + 1 ≡ self.old.room }
    {
        self.transcripts.push(transcript)
    }
}
