ghost use Rattle.std.specs.Prelude.{◌≡◌};
ghost use Rattle.aplsv_top.specs.StoredFiles.{files_in, store_of};

use apl_io::{MemoryClock, MemoryText, TextStore};
use aux_choice::OneOf;
use aux_components::Components;
use aux_relay::Relay;
use auxiliaries::{ClockAux, TextAux};
use std::alloc::Global;

/// What a run has of its own behind 10: a relay, or a clock of the bundle's readings.
pub(crate) type OwnTen = OneOf<Relay, ClockAux<MemoryClock>>;

/// What answers behind 10, whatever the words ask for: the clock that was handed in, or what the run has of its own. So the
/// program has one run for each kind of shelf, and not one for each choice.
pub(crate) type Ten<C> = OneOf<ClockAux<C>, OwnTen>;

/// The files in a text store, as they stand behind 20: files of lines, or component files.
pub(crate) type Files<T> = OneOf<TextAux<T>, Components<T>>;

/// What answers behind 20, whatever the words ask for: files in the text store that was handed in, or in the bundle's own. So the
/// program has one run for each kind of shelf, and not one for each choice.
pub(crate) type Twenty<T> = OneOf<Files<T>, Files<MemoryText>>;

/// The files in a store before a run: component files where they are asked for, and else files of lines.
pub(crate) fn files_in<T: TextStore>(alloc: Global, components: bool, store: T) -> Files<T>
    ensures { result ≡ files_in components store }
{
    if components {
        OneOf::Second(Components::new(alloc, store))
    } else {
        OneOf::First(TextAux::new(alloc, store))
    }
}

/// Their store.
pub(crate) fn store_of<T: TextStore>(files: Files<T>) -> T
    ensures { result ≡ store_of files }
{
    match files {
        OneOf::First(lines) => lines.into_store(),
        OneOf::Second(components) => components.into_store(),
    }
}
