ghost use Rattle.std.specs.Prelude.{◌≡◌, ◌<◌, vec_len};

use crate::History;
use crate::order::{Order, Start};
use crate::view::View;
use atomic_table::Table;
use crossbeam_utils::sync::EventCount;
use std::alloc::Global;

/// A state with a journal, which one seat at a time enters.
#[derive(Drop)]
pub struct Turnstile<S: History> {
    pub(crate) table: Table<Option<S>, View<S::Entry>, Start<S>, Order, Global>,
    // A bell for each place in the row of those who wait.
    pub(crate) bells: Vec<EventCount>,
    ghost sized: { (table.shared.table_id.words ≡ 4) × (table.shared.table_id.slots ≡ 1) },
    ghost belled: { (0 < vec_len bells) × (vec_len bells ≡ table.shared.key.parties) },
}
