ghost use Rattle.std.specs.Prelude.{◌≡◌, ◌≤◌, ◌-◌, ◌^◌, min, length};
ghost use Rattle.std.specs.Option.{option_copied};
ghost use Rattle.apl_arrays.specs.Limits.{most_elements};
ghost use Rattle.sv_events.specs.Answer.{plain_answer};
ghost use Rattle.sv_events.specs.Row.{act_weight, answer_weight, elements_of, length_of, listed_weight};

use crate::event::{Act, Answer};
use apl_arrays::Array;

/// How many elements a party or a name counts for that an answer lists.
const LISTED_WEIGHT: u64 = 8;

impl Act {
    /// How many elements the act weighs: those of the value that it hands in.
    pub fn weight(&self) -> u64
        ensures count { result ≡ act_weight self.now }
        ensures limit { result ≤ most_elements }
    {
        element_count(self.hands_in())
    }
}

impl Answer {
    /// How many elements the answer weighs: those of its value, and 8 for each party or name that it lists; the greatest
    /// number of 64 bits where they are more.
    pub fn weight(&self) -> u64
        ensures { result ≡ min (answer_weight (plain_answer self.now)) (2 ^ 64 - 1) }
    {
        let listed = count_of(self.parties()).saturating_add(count_of(self.names()));
        element_count(self.value()).saturating_add(LISTED_WEIGHT.saturating_mul(listed))
    }
}

// How many elements a value has, none where there is no value.
fn element_count(value: Option<&Array>) -> u64
    ensures count { result ≡ elements_of (option_copied value.entry) }
    ensures limit { result ≤ most_elements }
{
    match value {
        None => 0,
        Some(array) => array.items().len() as u64,
    }
}

// How long a list is, none where there is no list.
fn count_of<T>(list: Option<&[T]>) -> u64
    ensures { result ≡ length_of (option_copied list.entry) }
{
    match list {
        None => 0,
        Some(items) => items.len() as u64,
    }
}
