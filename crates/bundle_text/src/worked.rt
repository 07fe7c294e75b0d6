//! Texts of bundles at work.

ghost use Rattle.std.specs.Prelude.{◌≡◌, [], ◌∷◌, ◌++◌, pos, codes};
ghost use Rattle.bundle_text.specs.Breaks.{Breaks};
ghost use Rattle.bundle_text.specs.Rules.{IsBundle};
ghost use Rattle.bundle_text.specs.Bundle.{BundleText};

use crate::BundleRule;

/// Texts of bundles: the end alone, without its line feed; a user with a line; all sections, with two lines of turns. Users in
/// the wrong order, and turns of somebody who is no user, are no bundle. The call does nothing.
pub fn texts_at_work()
    ensures none { BundleText (codes "end") (record { users = []; order = []; files = []; clock = [] }) }
    ensures one { BundleText (codes "user 1001\n|X\nend") (record { users = record { number = 1001; lines = codes "X" ∷ [] } ∷ []; order = []; files = []; clock = [] }) }
    ensures whole { BundleText (codes "user 1001\norder 1001 10\norder 20\nfile A\n|X\n|\nclock 0 7\nend\n")
        (record { users = record { number = 1001; lines = [] } ∷ []; order = 1001 ∷ 10 ∷ 20 ∷ []; files = record { name = codes "A"; bytes = codes "X\n\n" } ∷ []; clock = pos 0 ∷ pos 7 ∷ [] }) }
    ensures descending { ¬ IsBundle (record { users = record { number = 1002; lines = [] } ∷ record { number = 1001; lines = [] } ∷ []; order = []; files = []; clock = [] }) }
    ensures stranger { ¬ IsBundle (record { users = record { number = 1001; lines = [] } ∷ []; order = 10 ∷ 1002 ∷ []; files = []; clock = [] }) }
{}

/// Texts that break a rule, and where. The call does nothing.
pub fn breaks_at_work()
    ensures nothing { Breaks [] 0 BundleRule.End }
    ensures no_end { Breaks (codes "user 1001\n") 10 BundleRule.End }
    ensures no_feed { Breaks (codes "user 1001\n|X") 10 BundleRule.Newline }
    ensures misplaced { Breaks (codes "|X\nend\n") 0 BundleRule.Place }
    ensures two_ends { Breaks (codes "end\nend\n") 4 BundleRule.Place }
    ensures stranger { Breaks (codes "user 1001\norder 1002\nend\n") 10 BundleRule.Party }
{}
