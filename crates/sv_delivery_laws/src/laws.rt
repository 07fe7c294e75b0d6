ghost use Rattle.sv_delivery_laws.specs.DeliveryLaws.{SentIsUnseenAndSet, TheUnseenIsTheNewest, OneIsUnseen, StoriesBeginInOrder, StretchesAddToTheStory, StretchesStandOrAreOpen, LosesNothingUnderControl, FeedsLoseNothing, RequestsHaveOneReply, WhatControlGives, FullVectorsHoldForBoth, InLegalJournals};

/// The law of what is sent, for every story: what a side sends in a stretch is its value that was unseen at the start and
/// what it sets; what is unseen is the newest of that, so that a set by the other side takes this one out; and no more
/// than one value is unseen. The call does nothing.
pub fn sent_law<V>()
    ensures sent { SentIsUnseenAndSet V }
    ensures newest { TheUnseenIsTheNewest V }
    ensures one { OneIsUnseen V }
{}

/// The law of stretches: in a legal journal, that what a stretch adds to the story is the difference between its end and its
/// start, that at each of its moments the coupling stands, or is still to be made and the giver's offer is open, and that
/// a full vector makes the control in force full; and how stories begin. The call does nothing.
pub fn stretch_law()
    ensures added { InLegalJournals StretchesAddToTheStory }
    ensures stands { InLegalJournals StretchesStandOrAreOpen }
    ensures full { InLegalJournals FullVectorsHoldForBoth }
    ensures begins { StoriesBeginInOrder }
{}

/// The law of delivery in a legal journal: what the other side uses of what a side sent, in a stretch in which control holds
/// for that side; that a feed is used in order and whole but for its newest value, which may be unseen; that a request has
/// one reply; and all three as one fact. The call does nothing.
pub fn delivery_law()
    ensures control { InLegalJournals LosesNothingUnderControl }
    ensures feeds { InLegalJournals FeedsLoseNothing }
    ensures requests { InLegalJournals RequestsHaveOneReply }
    ensures gives { InLegalJournals WhatControlGives }
{}
