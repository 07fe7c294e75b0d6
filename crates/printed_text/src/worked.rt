//! Lines of outputs at work: which may stand where, and what they say.

ghost use Rattle.std.specs.Prelude.{◌≡◌, [], ◌∷◌, false, true, codes};
ghost use Rattle.printed_text.specs.Draft.{entries_in, may_stand, nothing_read};
ghost use Rattle.printed_text.specs.Line.{end, entry, journal, shown, user};
ghost use Rattle.printed_text.specs.Worked.{any_users, both_users_read, ended_there, leave_of, one_left, one_user_read, two_named};

/// Headings come in the order of the users, the journal's behind all of them; without named users a number is above the one
/// before it. The call does nothing.
pub fn headings_as_they_stand()
    ensures first { may_stand two_named nothing_read (user 1001) ≡ true }
    ensures not_first { may_stand two_named nothing_read (user 1002) ≡ false }
    ensures second { may_stand two_named one_user_read (user 1002) ≡ true }
    ensures again { may_stand two_named one_user_read (user 1001) ≡ false }
    ensures third { may_stand two_named both_users_read (user 1003) ≡ false }
    ensures early { may_stand two_named one_user_read journal ≡ false }
    ensures opened { may_stand two_named both_users_read journal ≡ true }
    ensures above { may_stand any_users one_user_read (user 1999) ≡ true }
    ensures not_above { may_stand any_users one_user_read (user 1001) ≡ false }
    ensures none { may_stand any_users nothing_read journal ≡ true }
{}

/// What a user saw stands under its heading, an entry under the journal's at its own place, the end behind entries, and nothing
/// behind that. The call does nothing.
pub fn lines_as_they_stand()
    ensures headless { may_stand two_named nothing_read (shown []) ≡ false }
    ensures headed { may_stand two_named both_users_read (shown []) ≡ true }
    ensures early { may_stand two_named both_users_read (entry 1 (leave_of 1001)) ≡ false }
    ensures at_place { may_stand two_named one_left (entry 2 (leave_of 1002)) ≡ true }
    ensures at_another { may_stand two_named one_left (entry 3 (leave_of 1002)) ≡ false }
    ensures late { may_stand two_named one_left (shown []) ≡ false }
    ensures ends { may_stand two_named one_left end ≡ true }
    ensures no_end { may_stand two_named both_users_read end ≡ false }
    ensures behind { may_stand two_named ended_there end ≡ false }
{}

/// What lines say. The call does nothing.
pub fn lines_as_they_say()
    ensures users { ended_there.transcripts ≡ record { user = 1001; lines = codes "      2" ∷ [] } ∷ record { user = 1002; lines = [] } ∷ [] }
    ensures journal { entries_in ended_there.section ≡ leave_of 1001 ∷ [] }
{}
