ghost use Rattle.std.specs.Prelude.{◌≡◌, ◌≤◌, ◌+◌, Some, min, nat_le};
ghost use Rattle.std.specs.Option.{option_copied};
ghost use Rattle.apl_workspace.specs.Limits.{most_weight};
ghost use Rattle.apl_workspace.specs.Meaning.{meaning_weight};
ghost use Rattle.apl_workspace.specs.Workspace.{assigned, with_frame, with_global, workspace_weight};

use crate::frame::frame_weight;
use crate::frames::{fits_innermost, innermost_place};
use crate::limits::WEIGHT_LIMIT;
use crate::meaning::value_weight;
use crate::{Meaning, Seen, Workspace};
use apl_arrays::{Array, Name};

impl Workspace {
    /// Whether the workspace weighs no more than it may once a name has this value where a look-up finds the name, in a
    /// frame or as a global.
    pub fn takes(&self, name: &Name, value: &Array) -> bool
        ensures { result ≡ nat_le (workspace_weight (assigned self.now name.now value.now)) most_weight }
    {
        let weight = value_weight(value);
        match innermost_place(&self.frames, name) {
            None => self.has_room(name, weight),
            Some(at) => {
                let most = WEIGHT_LIMIT - self.globals.weight();
                fits_innermost(&self.frames, at, self.frames_weight, name, weight, most)
            }
        }
    }

    /// Whether the workspace weighs no more than it may once a global name stands for something of this weight, which is
    /// one more than a workspace may weigh for all that weighs more.
    pub fn has_room(&self, name: &Name, weight: usize) -> bool
        requires { weight ≤ most_weight + 1 }
        ensures { (meaning : Meaning) → weight ≡ min (meaning_weight meaning) (most_weight + 1) → result ≡ nat_le (workspace_weight (with_global self.now name.now meaning)) most_weight }
    {
        let most = WEIGHT_LIMIT - self.frames_weight;
        self.globals.fits(name, weight, most)
    }

    /// Whether the workspace weighs no more than it may once a shared variable keeps this value as its copy.
    pub fn takes_copy(&self, name: &Name, value: &Array) -> bool
        ensures { result ≡ nat_le (workspace_weight (with_global self.now name.now (Meaning.Shared (Some value.now)))) most_weight }
    {
        self.has_room(name, value_weight(value))
    }

    /// Whether the workspace weighs no more than it may with the frame of the function that a name stands for, called with
    /// these arguments, or with the copies that are made of them.
    pub fn frame_fits(&self, function: &Name, left: Option<&Array>, right: Option<&Array>) -> bool
        ensures { result ≡ nat_le (workspace_weight (with_frame self.now function.now (record { left = option_copied left.entry; right = option_copied right.entry }))) most_weight }
    {
        let weight = self.weight();
        match self.look(function) {
            Seen::Function(function) => weight + frame_weight(function, left, right)
                <= WEIGHT_LIMIT,
            _ => true,
        }
    }
}
