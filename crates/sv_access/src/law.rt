ghost use Rattle.sv_access.specs.Law.{StatesFollowStories, AccessesMoveTheState, VerdictsFollowStories, RefusalsNameAnElement, VectorsFollowStories, StatesHaveOneVector, SidesJoinAlike, OwnersAreAsTheRefusedSideSees};

/// The law of the table, for stories with values of any type: what the calls of this crate decide
/// by control and state is what the plain story of a coupling says. The call does nothing.
pub fn table_is_the_stories_law<V>()
    ensures states { StatesFollowStories V }
    ensures moves { AccessesMoveTheState V }
    ensures verdicts { VerdictsFollowStories V }
    ensures elements { RefusalsNameAnElement V }
    ensures owners { OwnersAreAsTheRefusedSideSees }
    ensures vectors { VectorsFollowStories V }
    ensures views { StatesHaveOneVector }
    ensures joins { SidesJoinAlike }
{}

#[cfg(test)]
mod tests;
