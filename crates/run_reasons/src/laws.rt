ghost use Rattle.run_reasons.specs.Laws.{ControlsAreOfTheirEntries, GroundsAreTheRules, KnownAsTheRulesDo, ValuesAreOfTheirEntries};

/// A ground without the entries that are named is what the rules share by, and a value without its entry is the one that they
/// know. The call does nothing.
pub fn what_is_named_is_what_the_rules_ask()
    ensures grounds { GroundsAreTheRules }
    ensures known { KnownAsTheRulesDo }
{}

/// An entry that is named for a control set it; one that is named for a value set it, got it or handed it in. The call does
/// nothing.
pub fn entries_that_are_named()
    ensures controls { ControlsAreOfTheirEntries }
    ensures values { ValuesAreOfTheirEntries }
{}
