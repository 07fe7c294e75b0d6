//! What holds behind changes, and before they are made.

ghost use Rattle.std.specs.Prelude.{◌≡◌, ◌&&◌, ◌∷◌, ℕ, List, Option, filter, if◌then◌else◌, true};
ghost use Rattle.std.specs.List.{list_any};
ghost use Rattle.apl_arrays.specs.Array.{PlainArray};
ghost use Rattle.apl_arrays.specs.Name.{same_name};
ghost use Rattle.apl_execute.specs.Merge.{asked, copy_in, is_copied, merged};
ghost use Rattle.apl_workspace.specs.Meaning.{is_shared_in, meaning_in};
ghost use Rattle.apl_workspace.specs.Workspace.{IsWorkspace, PlainWorkspace, is_shared, unmarked, unmarked_with_copy, with_printed};
ghost use Rattle.ws_commands.specs.Finish.{MayComeIn, changed, changed_id};
ghost use Rattle.ws_commands.specs.Todo.{PlainChange, given_up, is_another, swap};

use apl_execute::laws::merging_changes_the_copied_names;

/// After a copy the names that are copied stand for what the saved workspace has, and all others, the marks, the offers and
/// the id are as they were. The call does nothing.
pub fn copies_change_the_copied_names()
    ensures names { (w from : PlainWorkspace) (names : Option (List (List ℕ))) (name : List ℕ) → IsWorkspace w → meaning_in (changed (swap (merged w from names)) w).globals name
        ≡ (if is_copied w from name && list_any (same_name name) (asked from names) then copy_in from name else meaning_in w.globals name) }
    ensures marks { (w from : PlainWorkspace) (names : Option (List (List ℕ))) (name : List ℕ) → IsWorkspace w → is_shared_in (changed (swap (merged w from names)) w).globals name ≡ is_shared w name }
    ensures others { (w from : PlainWorkspace) (names : Option (List (List ℕ))) → changed (swap (merged w from names)) w ≡ record w { globals = (merged w from names).globals } }
    ensures id { (w : PlainWorkspace) (id : Option (List ℕ)) → changed_id (swap w) id ≡ id }
{
    merging_changes_the_copied_names();
}

/// A name whose share was retracted is none of those that a change gives up any more, and all others still are. The call does
/// nothing.
pub fn retracted_names_are_given_up()
    ensures unmarked { (change : PlainChange) (w : PlainWorkspace) (name : List ℕ) (value : Option PlainArray) → IsWorkspace w → given_up change (unmarked w name value) ≡ filter (is_another name) (given_up change w) }
    ensures kept { (change : PlainChange) (w : PlainWorkspace) (name : List ℕ) → IsWorkspace w → given_up change (unmarked_with_copy w name) ≡ filter (is_another name) (given_up change w) }
{}

/// The names that a change gives up may be retracted in their order: the first of them is shared, and once it is retracted,
/// with a value or with its own copy, the others are left. The call does nothing.
pub fn retractions_follow_each_other()
    ensures shared { (change : PlainChange) (w : PlainWorkspace) (name : List ℕ) (rest : List (List ℕ)) → IsWorkspace w → given_up change w ≡ name ∷ rest → is_shared w name ≡ true }
    ensures unmarked { (change : PlainChange) (w : PlainWorkspace) (name : List ℕ) (rest : List (List ℕ)) (value : Option PlainArray) → IsWorkspace w → given_up change w ≡ name ∷ rest → given_up change (unmarked w name value) ≡ rest }
    ensures kept { (change : PlainChange) (w : PlainWorkspace) (name : List ℕ) (rest : List (List ℕ)) → IsWorkspace w → given_up change w ≡ name ∷ rest → given_up change (unmarked_with_copy w name) ≡ rest }
{}

/// A workspace that may come in place of another may do so too once names are retracted there, with values or with their own
/// copies, and once more is printed. The call does nothing.
pub fn workspaces_may_still_come_in()
    ensures unmarked { (w new : PlainWorkspace) (name : List ℕ) (value : Option PlainArray) → MayComeIn w new → MayComeIn (unmarked w name value) new }
    ensures kept { (w new : PlainWorkspace) (name : List ℕ) → MayComeIn w new → MayComeIn (unmarked_with_copy w name) new }
    ensures printed { (w new : PlainWorkspace) (glyphs : ℕ) → MayComeIn w new → MayComeIn (with_printed w glyphs) new }
{}
