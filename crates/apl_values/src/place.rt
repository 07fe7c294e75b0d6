ghost use Rattle.std.specs.Prelude.{◌≡◌};
ghost use Rattle.apl_meaning.specs.Statements.{may_be_labelled, may_branch, place_of_text};
ghost use Rattle.apl_values.specs.Places.{plain_place};

/// Where a statement stands: it is the line as read, a line of a function, or a text that either of them executes.
#[derive(Clone, Copy, Debug, PartialEq, Eq)]
pub enum Place {
    Immediate,
    InFunction,
    TextOfInput,
    TextInFunction,
}

impl Place {
    /// Whether a label may stand before the statement.
    pub fn may_be_labelled(self) -> bool
        ensures { result ≡ may_be_labelled (plain_place self) }
    {
        matches!(self, Place::InFunction)
    }

    /// Whether the statement may branch.
    pub fn may_branch(self) -> bool
        ensures { result ≡ may_branch (plain_place self) }
    {
        matches!(self, Place::InFunction | Place::TextInFunction)
    }

    /// Where a text stands that the statement executes.
    pub fn of_text(self) -> Place
        ensures { plain_place result ≡ place_of_text (plain_place self) }
    {
        match self {
            Place::Immediate | Place::TextOfInput => Place::TextOfInput,
            Place::InFunction | Place::TextInFunction => Place::TextInFunction,
        }
    }
}
