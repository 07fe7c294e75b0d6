ghost use Rattle.std.specs.Prelude.{◌≡◌};
ghost use Rattle.sv_core.specs.Histories.{OneMoreIsAppended};
ghost use Rattle.sv_core.specs.NoControl.{NoActIsHeld, NoEntryIsHeld, NobodyWaits};

/// The law of journals in which no entry sets a control: whatever a party does is answered at once, and neither held nor
/// given up; and in a legal one no entry was, so that nobody waits. The call does nothing.
pub fn no_control_law()
    ensures act { NoActIsHeld }
    ensures entry { NoEntryIsHeld }
    ensures nobody { NobodyWaits }
{}

/// What an act adds to a core is one entry of its party behind all others. The call does nothing.
pub fn one_entry_more_is_appended()
    ensures { OneMoreIsAppended }
{}
