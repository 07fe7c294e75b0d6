ghost use Rattle.std.specs.Prelude.{◌≡◌, ℕ, List};
ghost use Rattle.aplsv_top.specs.Checks.{IsSplit};
ghost use Rattle.aplsv_top.specs.OutputLaws.{BundlesHaveOneOutput, OutputsAreDetermined, OwnOutputsAreOne, PrintedControlLosesNothing, ReplaysAreDetermined};

use apl_io::{Clock, Shelf, TextStore};
use aux_components::files_are_read_in_one_way as component_files_are_read_in_one_way;
use auxiliaries::files_are_read_in_one_way;
use bundle_text::texts_are_of_one_bundle;
use session_rules::one_transcript_of_parts;
use sv_delivery_laws::delivery_law;

/// A bundle has one output: the text that is written is a function of the bytes read. The call does nothing.
pub fn a_bundle_has_one_output()
    ensures { BundlesHaveOneOutput }
{
    texts_are_of_one_bundle();
    files_are_read_in_one_way();
    one_transcript_of_parts();
}

/// What `replay` comes to is a function of the bundle and of what the devices tell: over clocks, text stores and shelves that
/// tell the same, all of what they keep, two runs of a bundle have one journal and the same transcripts, unless a call that was
/// to change an entry fails and leaves it untold. The call does nothing.
pub fn replays_are_determined<T: TextStore, C: Clock, K: Shelf>()
    ensures { ReplaysAreDetermined C.told C.faults T.told T.faults K.told K.faults }
{
    files_are_read_in_one_way();
    one_transcript_of_parts();
}

/// So what is written of such runs is one text: over devices that tell it is a function of the bytes read and of what they tell,
/// whichever of them the bundle's own are. The call does nothing.
pub fn outputs_are_determined<T: TextStore, C: Clock, K: Shelf>()
    ensures { OutputsAreDetermined C.told C.faults T.told T.faults K.told K.faults }
{
    files_are_read_in_one_way();
    one_transcript_of_parts();
}

/// Where a replay is asked for and no word names a device, what is written is one function of the bytes read, and of whether
/// component files and a relay are asked for: so it is everywhere the same. The call does nothing.
pub fn own_outputs_are_one<T: TextStore, C: Clock, K: Shelf>()
    ensures { OwnOutputsAreOne C.told C.faults T.told T.faults K.told K.faults }
{
    texts_are_of_one_bundle();
    files_are_read_in_one_way();
    component_files_are_read_in_one_way();
    one_transcript_of_parts();
}

/// What control gives holds of the journal in each output: in a stretch of a coupling that is under control nothing is lost
/// but what its receiver set over, a feed is used in order and whole but for a newest value that is unseen, and a request has
/// one reply. The call does nothing.
pub fn printed_control_loses_nothing()
    ensures { PrintedControlLosesNothing }
{
    delivery_law();
}

/// An input that is checked is a bundle and a text behind it in one way. The call does nothing.
pub fn an_input_is_split_in_one_way()
    ensures { (input bundle text other rest : List ℕ) → IsSplit input bundle text → IsSplit input other rest → (bundle ≡ other) × (text ≡ rest) }
{}
