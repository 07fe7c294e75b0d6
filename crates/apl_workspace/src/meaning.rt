ghost use Rattle.std.specs.Prelude.{◌≡◌, ◌+◌, IfOk, min};
ghost use Rattle.std.specs.Option.{option_copied};
ghost use Rattle.apl_workspace.specs.Meaning.{meaning_weight, value_weight};
ghost use Rattle.apl_workspace.specs.Limits.{most_weight};

use crate::Function;
use apl_arrays::{Array, WantOfMemory};
use std::alloc::Global;

/// What a name stands for: nothing, a value, a function, the line of a label, or a shared variable with its own copy
/// of the value.
#[derive(Debug, Drop)]
pub enum Meaning {
    Nothing,
    Value(Array),
    Function(Function),
    Label(u32),
    Shared(Option<Array>),
}

impl Meaning {
    /// An equal meaning. It takes memory for the value or the function.
    pub fn copy(&self, alloc: Global) -> Result<Meaning, WantOfMemory>
        ensures { IfOk result (λ meaning. meaning ≡ self.now) }
    {
        match self {
            Meaning::Nothing => Ok(Meaning::Nothing),
            Meaning::Value(value) => Ok(Meaning::Value(value.copy(alloc)?)),
            Meaning::Function(function) => Ok(Meaning::Function(function.copy(alloc)?)),
            Meaning::Label(line) => Ok(Meaning::Label(*line)),
            Meaning::Shared(None) => Ok(Meaning::Shared(None)),
            Meaning::Shared(Some(value)) => Ok(Meaning::Shared(Some(value.copy(alloc)?))),
        }
    }

    /// What it weighs, or one more than a workspace may weigh where that is less.
    pub fn weight(&self) -> usize
        ensures { result ≡ min (meaning_weight self.now) (most_weight + 1) }
    {
        match self {
            Meaning::Nothing | Meaning::Label(_) | Meaning::Shared(None) => 0,
            Meaning::Value(value) | Meaning::Shared(Some(value)) => value_weight(value),
            Meaning::Function(function) => function.weight(),
        }
    }
}

/// What a value weighs: one, and its items.
pub fn value_weight(value: &Array) -> usize
    ensures { result ≡ min (value_weight value.now) (most_weight + 1) }
{
    value.items().len() + 1
}
