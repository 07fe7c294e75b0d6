//! Commands that were worked by hand.

ghost use Rattle.std.specs.Prelude.{◌≡◌, ◌∷◌, ◌++◌, [], ℕ, List, Option, Some, None, Ok, Err, codes, false, pos, true};
ghost use Rattle.apl_arrays.specs.Array.{scalar};
ghost use Rattle.apl_arrays.specs.Glyph.{delta};
ghost use Rattle.apl_workspace.specs.Listing.{names_asked};
ghost use Rattle.apl_workspace.specs.Workspace.{PlainWorkspace, empty_workspace};
ghost use Rattle.apl_workspace.specs.declared.meaning.Meaning.TheVariants.{Shared, Value};
ghost use Rattle.apl_workspace.specs.declared.what.What.TheVariants.{Functions, Variables};
ghost use Rattle.ws_codec.specs.declared.saved.SavedRule.{SavedRule};
ghost use Rattle.ws_commands.specs.Finish.{changed, changed_id, is_off};
ghost use Rattle.ws_commands.specs.Library.{copied_from, copying, dropped, dropping, listing_library, loaded, loaded_by, loading, saving};
ghost use Rattle.ws_commands.specs.Names.{clearing, erasing, ending_session, listing};
ghost use Rattle.ws_commands.specs.Reading.{step_of};
ghost use Rattle.ws_commands.specs.Step.{does};
ghost use Rattle.ws_commands.specs.Todo.{PlainTodo, clear, counting, damaged, erase, incorrect, keep, off, replace, saying, set_id, swap, unknown};
ghost use Rattle.ws_commands.specs.Worked.{of_a_share, of_two, offer_of_x};

/// Commands as they are written, with blanks in front, between words and behind. The call does nothing.
pub fn commands_as_written()
    ensures clear { (w : PlainWorkspace) (id : Option (List ℕ)) → step_of (codes ")CLEAR") w id ≡ does (clearing w) }
    ensures unnamed { (w : PlainWorkspace) → step_of (codes ")SAVE") w None ≡ does (saying (codes "WS NOT NAMED" ∷ [])) }
    ensures by_id { (w : PlainWorkspace) (id : List ℕ) → step_of (codes ")SAVE") w (Some id) ≡ saving (Some id) w }
    ensures by_name { (w : PlainWorkspace) (id : Option (List ℕ)) → step_of (codes "  )SAVE  COPIER ") w id ≡ saving (Some (codes "COPIER")) w }
    ensures load { (w : PlainWorkspace) (id : Option (List ℕ)) → step_of (codes ")LOAD W") w id ≡ loading (codes "W") w }
    ensures copy { (w : PlainWorkspace) (id : Option (List ℕ)) → step_of (codes ")COPY W X Z") w id ≡ copying (codes "W") (codes "X" ∷ codes "Z" ∷ []) w }
    ensures copy_all { (w : PlainWorkspace) (id : Option (List ℕ)) → step_of (codes ")COPY W") w id ≡ copying (codes "W") [] w }
    ensures drop { (w : PlainWorkspace) (id : Option (List ℕ)) → step_of (codes ")DROP W") w id ≡ dropping (codes "W") }
    ensures lib { (w : PlainWorkspace) (id : Option (List ℕ)) → step_of (codes ")LIB") w id ≡ listing_library }
    ensures fns { (w : PlainWorkspace) (id : Option (List ℕ)) → step_of (codes ")FNS") w id ≡ does (listing (names_asked Functions w)) }
    ensures vars { (w : PlainWorkspace) (id : Option (List ℕ)) → step_of (codes ")VARS") w id ≡ does (listing (names_asked Variables w)) }
    ensures erase { (w : PlainWorkspace) (id : Option (List ℕ)) → step_of (codes ")ERASE X Z X") w id ≡ does (erasing (codes "X" ∷ codes "Z" ∷ codes "X" ∷ []) w) }
    ensures no_id { (w : PlainWorkspace) → step_of (codes ")WSID") w None ≡ does (saying (codes "CLEAR WS" ∷ [])) }
    ensures id { (w : PlainWorkspace) → step_of (codes ")WSID") w (Some (codes "W")) ≡ does (saying (codes "IS W" ∷ [])) }
    ensures first_id { (w : PlainWorkspace) → step_of (codes ")WSID V") w None ≡ does (record { retract = []; lines = codes "WAS CLEAR WS" ∷ []; counted = false; change = set_id (codes "V"); remakes = [] }) }
    ensures next_id { (w : PlainWorkspace) → step_of (codes ")WSID V") w (Some (codes "W")) ≡ does (record { retract = []; lines = codes "WAS W" ∷ []; counted = false; change = set_id (codes "V"); remakes = [] }) }
    ensures off { (w : PlainWorkspace) (id : Option (List ℕ)) → step_of (codes ")OFF") w id ≡ does ending_session }
{}

/// Lines that are no commands: another word, too few or too many words behind it, and words that are no names. The call does
/// nothing.
pub fn no_commands_as_written()
    ensures nothing { (w : PlainWorkspace) (id : Option (List ℕ)) → step_of (codes ")") w id ≡ does incorrect }
    ensures apart { (w : PlainWorkspace) (id : Option (List ℕ)) → step_of (codes ") LIB") w id ≡ does incorrect }
    ensures longer { (w : PlainWorkspace) (id : Option (List ℕ)) → step_of (codes ")LIBS") w id ≡ does incorrect }
    ensures shorter { (w : PlainWorkspace) (id : Option (List ℕ)) → step_of (codes ")LI") w id ≡ does incorrect }
    ensures functions { (w : PlainWorkspace) (id : Option (List ℕ)) → step_of (codes ")FNS X") w id ≡ does incorrect }
    ensures clear { (w : PlainWorkspace) (id : Option (List ℕ)) → step_of (codes ")CLEAR W") w id ≡ does incorrect }
    ensures two_names { (w : PlainWorkspace) (id : Option (List ℕ)) → step_of (codes ")SAVE W V") w id ≡ does incorrect }
    ensures no_name { (w : PlainWorkspace) (id : Option (List ℕ)) → step_of (codes ")LOAD") w id ≡ does incorrect }
    ensures delta { (w : PlainWorkspace) (id : Option (List ℕ)) → step_of (codes ")SAVE W" ++ delta ∷ []) w id ≡ does incorrect }
    ensures number { (w : PlainWorkspace) (id : Option (List ℕ)) → step_of (codes ")DROP 1W") w id ≡ does incorrect }
    ensures objects { (w : PlainWorkspace) (id : Option (List ℕ)) → step_of (codes ")COPY W X 1") w id ≡ does incorrect }
    ensures no_object { (w : PlainWorkspace) (id : Option (List ℕ)) → step_of (codes ")ERASE") w id ≡ does incorrect }
    ensures bad_object { (w : PlainWorkspace) (id : Option (List ℕ)) → step_of (codes ")ERASE X+") w id ≡ does incorrect }
{}

/// Names that are listed and erased: a name that is mentioned again is not there any more, and a shared one is retracted
/// first, with a value or without. The call does nothing.
pub fn names_as_worked()
    ensures variables { listing (names_asked Variables (of_two 3 4 0)) ≡ counting (codes "X  Y" ∷ []) }
    ensures functions { listing (names_asked Functions (of_two 3 4 0)) ≡ counting [] }
    ensures shares { listing (names_asked Variables (of_a_share None)) ≡ counting (codes "X  Y" ∷ []) }
    ensures erased { erasing (codes "X" ∷ codes "Z" ∷ codes "X" ∷ []) (of_two 3 4 0)
        ≡ record { retract = []; lines = codes "NOT FOUND: Z" ∷ codes "NOT FOUND: X" ∷ []; counted = false; change = erase (codes "X" ∷ codes "Z" ∷ codes "X" ∷ []); remakes = [] } }
    ensures shared { erasing (codes "Y" ∷ codes "X" ∷ []) (of_a_share None)
        ≡ record { retract = codes "X" ∷ []; lines = []; counted = false; change = erase (codes "Y" ∷ codes "X" ∷ []); remakes = [] } }
    ensures cleared { clearing (of_a_share (Some (scalar (pos 3)))) ≡ record { retract = codes "X" ∷ []; lines = codes "CLEAR WS" ∷ []; counted = false; change = clear; remakes = [] } }
    ensures left { ending_session ≡ record { retract = []; lines = []; counted = false; change = off; remakes = [] } }
{}

/// What a load leads to: nothing is under the name, or the bytes are no workspace, and all stays; else all shares are
/// retracted, the workspace is replaced, and its offers are made again. The call does nothing.
pub fn loads_as_worked()
    ensures unknown { loaded (codes "W") (of_a_share None) None ≡ record { retract = []; lines = codes "WS NOT FOUND" ∷ []; counted = false; change = keep; remakes = [] } }
    ensures damaged { (fault : ℕ × SavedRule) → loaded_by (codes "W") (of_a_share None) (Err fault) ≡ record { retract = []; lines = codes "WS DAMAGED" ∷ []; counted = false; change = keep; remakes = [] } }
    ensures loaded { loaded_by (codes "W") (of_a_share None) (Ok (record { workspace = of_two 3 4 0; remakes = offer_of_x ∷ [] }))
        ≡ record { retract = codes "X" ∷ []; lines = codes "LOADED W" ∷ []; counted = false; change = replace (of_two 3 4 0) (codes "W"); remakes = offer_of_x ∷ [] } }
{}

/// What copies lead to, where X is 8 and Y is 9 here and they are 3 and 4 there: names in the order given, each once; all; and
/// a name that is shared here. The call does nothing.
pub fn copies_as_worked()
    ensures some { copied_from (codes "W") (codes "X" ∷ codes "Z" ∷ []) (of_two 8 9 7) (of_two 3 4 0)
        ≡ record { retract = []; lines = codes "COPIED W" ∷ codes "NOT FOUND: Z" ∷ []; counted = false; change = swap (of_two 3 9 7); remakes = [] } }
    ensures all { copied_from (codes "W") [] (of_two 8 9 7) (of_two 3 4 0)
        ≡ record { retract = []; lines = codes "COPIED W" ∷ []; counted = false; change = swap (of_two 3 4 7); remakes = [] } }
    ensures twice { copied_from (codes "W") (codes "Z" ∷ codes "Y" ∷ codes "Z" ∷ codes "Y" ∷ codes "A" ∷ []) (of_two 8 9 7) (of_two 3 4 0)
        ≡ record { retract = []; lines = codes "COPIED W" ∷ codes "NOT FOUND: Z" ∷ codes "NOT FOUND: A" ∷ []; counted = false; change = swap (of_two 8 4 7); remakes = [] } }
    ensures shared { copied_from (codes "W") [] (of_a_share None) (of_two 3 5 0)
        ≡ record { retract = []; lines = codes "COPIED W" ∷ codes "NOT COPIED: X" ∷ []; counted = false; change = swap (record (of_a_share None) { globals = (codes "X", Shared None) ∷ (codes "Y", Value (scalar (pos 5))) ∷ [] }); remakes = [] } }
{}

/// What is said of the shelf. The call does nothing.
pub fn lists_as_worked()
    ensures dropped { dropped (codes "W") true ≡ record { retract = []; lines = codes "DROPPED W" ∷ []; counted = false; change = keep; remakes = [] } }
    ensures unknown { dropped (codes "W") false ≡ record { retract = []; lines = codes "WS NOT FOUND" ∷ []; counted = false; change = keep; remakes = [] } }
    ensures listed { counting (codes "V" ∷ codes "W" ∷ []) ≡ record { retract = []; lines = codes "V" ∷ codes "W" ∷ []; counted = true; change = keep; remakes = [] } }
{}

/// What changes leave: how many glyphs were printed is kept whatever comes in, and a copy keeps the id. The call does nothing.
pub fn changes_as_worked()
    ensures cleared { changed clear (of_two 3 4 7) ≡ record empty_workspace { printed = 7 } }
    ensures replaced { changed (replace (of_two 8 9 0) (codes "W")) (of_two 3 4 7) ≡ of_two 8 9 7 }
    ensures erased { changed (erase (codes "X" ∷ codes "Z" ∷ codes "X" ∷ [])) (of_two 3 4 7) ≡ record (of_two 3 4 7) { globals = (codes "Y", Value (scalar (pos 4))) ∷ [] } }
    ensures no_id { (id : Option (List ℕ)) → changed_id clear id ≡ None }
    ensures loaded_id { (w : PlainWorkspace) (id : Option (List ℕ)) → changed_id (replace w (codes "W")) id ≡ Some (codes "W") }
    ensures same_id { (w : PlainWorkspace) (id : Option (List ℕ)) → changed_id (swap w) id ≡ id }
    ensures off { is_off off ≡ true }
{}
