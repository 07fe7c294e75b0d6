ghost use Rattle.std.specs.Prelude.{◌≤◌, false, length, vec_len};
ghost use Rattle.apl_session.specs.Ended.{IfWhole};
ghost use Rattle.aplsv_top.specs.Headline.{RunBy};

use apl_io::{Gate, Shelf};
use apl_session::RunOf;
use aplsv_serve::serve_with;
use auxiliaries::Replier;
use bundle_text::Bundle;
use std::alloc::Global;
use std::sync::Wait;
use std::thread::Threads;

/// So many workers, and the gate that each party passes before each of its turns.
#[derive(Drop)]
pub(crate) struct Server<'a, R, G> {
    pub rt: &'a R,
    pub workers: u32,
    pub gate: &'a G,
    ghost some: { 1 ≤ workers },
    ghost few: { workers ≤ 34 },
}

impl<'a, R: Threads + Wait + Sync, G: Gate + Sync> Server<'a, R, G> {
    /// Runs a bundle on threads over what answers behind 10 and 20, and a shelf for each user. It takes memory for the run.
    pub fn run<X: Replier + Send + Drop, Y: Replier + Send + Drop, K: Shelf + Send + Drop>(
        &self,
        alloc: Global,
        bundle: Bundle,
        ten: X,
        twenty: Y,
        shelves: Vec<K>,
    ) -> RunOf<X, Y, K>
        requires { length bundle.users ≤ vec_len shelves }
        ensures { IfWhole result.ended (λ transcripts journal. RunBy false X.forgets X.replies Y.forgets Y.replies K.told K.faults bundle journal transcripts ten result.ten twenty result.twenty shelves.items result.shelves.items) }
    {
        serve_with(
            self.rt,
            alloc,
            bundle,
            ten,
            twenty,
            shelves,
            self.workers,
            self.gate,
        )
    }
}
