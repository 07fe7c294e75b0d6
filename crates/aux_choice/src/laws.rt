ghost use Rattle.aux_choice.specs.OneOf.{FirstComes, FirstStays, SecondComes, SecondStays};

use auxiliaries::Replier;

/// What begins as one of two is that one throughout, also where memory runs out over an answer, and its run is a run of that one.
/// The call does nothing.
pub fn choices_stay<X: Replier + Drop, Y: Replier + Drop>()
    ensures first { FirstStays X.forgets X.replies Y.forgets Y.replies }
    ensures second { SecondStays X.forgets X.replies Y.forgets Y.replies }
    ensures first_comes { FirstComes X.forgets X.replies X.wants Y.forgets Y.replies Y.wants }
    ensures second_comes { SecondComes X.forgets X.replies X.wants Y.forgets Y.replies Y.wants }
{}
