ghost use Rattle.session_rules.specs.SessionLaws.{AnswersAreTakenOneByOne, FullEndsItsLine, MoreAnswersComeBack, NoLineLeaves, TheNextAnswerIsTaken, TranscriptsGrow};

/// An act that waits takes the next answer, and no other act does. The call does nothing.
pub fn the_next_answer_is_taken()
    ensures { TheNextAnswerIsTaken }
{}

/// While an act waits, each answer was taken by one act. The call does nothing.
pub fn answers_are_taken_one_by_one()
    ensures { AnswersAreTakenOneByOne }
{}

/// A session that is finished takes no more answers. The call does nothing.
pub fn more_answers_come_back()
    ensures { MoreAnswersComeBack }
{}

/// What was printed with some answers is the beginning of what is printed with more. The call does nothing.
pub fn transcripts_grow()
    ensures { TranscriptsGrow }
{}

/// No line asks to leave. The call does nothing.
pub fn no_line_leaves()
    ensures { NoLineLeaves }
{}

/// While an act waits, fewer answers than lines told that the journal is full, since such an answer ends its line. The call
/// does nothing.
pub fn full_ends_its_line()
    ensures { FullEndsItsLine }
{}
