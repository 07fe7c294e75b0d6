ghost use Rattle.std.specs.Prelude.{◌≡◌, Some, [], ◌∷◌};
ghost use Rattle.sv_access.specs.Story.{last_value};
ghost use Rattle.sv_access.specs.WorkedStory.{once_set, set_over, seen_by_a, set_again, seen_by_b, four_verdicts};

use crate::law::table_is_the_stories_law;
use crate::verdict::Verdict;

// The definitions at work on one story: what full control would hold after each access.
fn a_set_over_an_unseen_value()
    ensures at_first { four_verdicts [] ≡ Verdict.Granted ∷ Verdict.Granted ∷ Verdict.Held 3 ∷ Verdict.Held 4 ∷ [] }
    ensures once_set { four_verdicts once_set ≡ Verdict.Held 1 ∷ Verdict.Granted ∷ Verdict.Held 3 ∷ Verdict.Granted ∷ [] }
    ensures set_over { four_verdicts set_over ≡ Verdict.Granted ∷ Verdict.Held 2 ∷ Verdict.Granted ∷ Verdict.Held 4 ∷ [] }
    ensures set_over_value { last_value set_over ≡ Some 9 }
    ensures seen_by_a { four_verdicts seen_by_a ≡ Verdict.Granted ∷ Verdict.Granted ∷ Verdict.Held 3 ∷ Verdict.Held 4 ∷ [] }
    ensures seen_by_a_value { last_value seen_by_a ≡ Some 9 }
    ensures set_again { four_verdicts set_again ≡ Verdict.Held 1 ∷ Verdict.Granted ∷ Verdict.Held 3 ∷ Verdict.Granted ∷ [] }
    ensures seen_by_b { four_verdicts seen_by_b ≡ Verdict.Granted ∷ Verdict.Granted ∷ Verdict.Held 3 ∷ Verdict.Held 4 ∷ [] }
    ensures seen_by_b_value { last_value seen_by_b ≡ Some 2 }
{}

#[test]
fn states_the_law() {
    table_is_the_stories_law::<u8>();
    a_set_over_an_unseen_value();
}
