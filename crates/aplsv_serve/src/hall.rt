use crate::boxed_core::BoxedCore;
use sv_turn::Turnstile;

/// What the parties of a run share: the processor behind its turnstile, the users' numbers, and the gate.
#[derive(Drop)]
pub struct Hall<'a, G> {
    pub stile: Turnstile<BoxedCore>,
    pub users: Vec<u32>,
    pub gate: &'a G,
}
