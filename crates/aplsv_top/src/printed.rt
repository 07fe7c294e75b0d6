ghost use Rattle.aplsv_top.specs.Printed.{OutputsArePrinted, OwnOutputsAreTheBundles, PrintedAccessesFollowTheTable, PrintedJournalsAnswerFullPastTheirLimit, PrintedTranscriptsAreEvaluatedAlone, PrintedUsesGiveTheLastValue, WhatIsWrittenIsPrinted};
ghost use Rattle.aplsv_top.specs.Relayed.{RelayedTextsArrive};

use apl_io::{Clock, Shelf, TextStore};
use aux_relay::{replies_are_relayed, what_is_taken_was_given};
use journal_laws::{
    accesses_follow_the_table, full_journals_take_leaves_alone, transcripts_are_evaluated_alone,
    uses_give_the_last_value,
};

/// The output of each run tells of the bundle that was read, over any devices; and where the program is `Done` it is this that
/// was written (`causes` of `aplsv` and of `aplsv_replay_words`). The call does nothing.
pub fn outputs_are_printed<T: TextStore, C: Clock, K: Shelf>()
    ensures printed { OutputsArePrinted C.told C.faults T.told T.faults K.told K.faults }
    ensures written { WhatIsWrittenIsPrinted C.told C.faults T.told T.faults K.told K.faults }
{}

/// Where a replay is asked for, and no word names a device, component files or a relay, what is written is the output of a run over
/// the bundle's files and readings and empty shelves, of which there is one (`a_bundle_has_one_output`). The call does nothing.
pub fn own_outputs_are_the_bundles<T: TextStore, C: Clock, K: Shelf>()
    ensures { OwnOutputsAreTheBundles C.told C.faults T.told T.faults K.told K.faults }
{}

/// With `--relay` each reply of party 10 in the journal of an output is the relay's after the replies before it, so that what a
/// user took of another is a front part of what that one gave, in its order, each text once. The call does nothing.
pub fn relayed_texts_arrive<T: TextStore, C: Clock, K: Shelf>()
    ensures { RelayedTextsArrive C.told C.faults T.told T.faults K.told K.faults }
{
    replies_are_relayed();
    what_is_taken_was_given();
}

/// Each set and each use of an offered name in a journal that is printed is granted exactly where the access table allows it
/// over the entries before it, and else refused by the element that the table names. The call does nothing.
pub fn printed_accesses_follow_the_table()
    ensures { PrintedAccessesFollowTheTable }
{
    accesses_follow_the_table();
}

/// Each use in it that is not refused gives the value that either side set last, in a coupling; without one the value that
/// its party knows; or none. The call does nothing.
pub fn printed_uses_give_the_last_value()
    ensures { PrintedUsesGiveTheLastValue }
{
    uses_give_the_last_value();
}

/// Each transcript that is printed is its user's lines, evaluated alone with the answers that the journal gives that user, with
/// Full behind these where the journal was full, and with replies of a shelf. The call does nothing.
pub fn printed_transcripts_are_evaluated_alone()
    ensures { PrintedTranscriptsAreEvaluatedAlone }
{
    transcripts_are_evaluated_alone();
}

/// Past its limit a journal that is printed takes leaves alone, and no entry of it has the answer Full: what a user's lines ask
/// then has no entry, and is answered Full (`printed_transcripts_are_evaluated_alone`). The call does nothing.
pub fn printed_journals_answer_full_past_their_limit()
    ensures { PrintedJournalsAnswerFullPastTheirLimit }
{
    full_journals_take_leaves_alone();
}
