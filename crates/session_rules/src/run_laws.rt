ghost use Rattle.session_rules.specs.RunLaws.{NothingFollowsTheLastLeave, OthersChangeNoAuxiliaryPart, OthersChangeNoUserPart, PartsMakeOneTranscript, ShelvesKeepTheirPlaces};

use apl_io::Shelf;
use auxiliaries::Replier;

/// What others enter behind a user's part leaves that part true. The call does nothing.
pub fn others_change_no_user_part()
    ensures { OthersChangeNoUserPart }
{}

/// What others enter behind an auxiliary's part leaves that part true, whatever answers behind it. The call does nothing.
pub fn others_change_no_auxiliary_part<X: Replier>()
    ensures { OthersChangeNoAuxiliaryPart X.forgets X.replies }
{}

/// A journal of a bundle gives each user one transcript. The call does nothing.
pub fn one_transcript_of_parts()
    ensures { PartsMakeOneTranscript }
{}

/// Before each entry of a run some user has not left, so that nothing follows the last leave. The call does nothing.
pub fn nothing_follows_the_last_leave()
    ensures { NothingFollowsTheLastLeave }
{}

/// Commands give no place to the shelf that they call: where it tells the places that it was given, these stay. The call does
/// nothing.
pub fn shelves_keep_their_places<K: Shelf>()
    ensures { ShelvesKeepTheirPlaces K.told K.faults }
{}
