ghost use Rattle.std.specs.Prelude.{◌≡◌, ◌<◌, ◌≤◌, ◌++◌, ◌∷◌, [], ℕ, List, None, Some, codes, decimal, pos, negsuc};
ghost use Rattle.std.specs.declared.option.Option.{Option};
ghost use Rattle.apl_arrays.specs.Array.{PlainArray, char_array, number_array, scalar};
ghost use Rattle.apl_arrays.specs.File.{IsFileName};
ghost use Rattle.apl_arrays.specs.Name.{name_order};
ghost use Rattle.apl_io.specs.Content.{Told, entry_of};
ghost use Rattle.auxiliaries.specs.Protocol.{code, no_line, line_answer};
ghost use Rattle.aux_words.specs.Number.{greatest_number};
ghost use Rattle.sv_text.specs.Value.{IsValue};
ghost use Rattle.aux_components.specs.Request.{append, request_of, count, get, next, other, replace};
ghost use Rattle.aux_components.specs.File.{AreComponents, component_asked, components_changed, component, file_bytes};
ghost use Rattle.aux_components.specs.Filed.{Filed, IsAskedStep, IsChangeStep};
ghost use Rattle.aux_components.specs.Kept.{HasComponents, IsChanged};
ghost use Rattle.aux_components.specs.Protocol.{answers, asks, changes, holding, idle, protocol_step, taking};

use apl_io::TextStore;
use aux_words::{fields_are_as_written, numbers_are_as_written};

/// Requests as they are written: the word, the name of a file and a number, with one blank between, and nothing before or
/// behind. The call does nothing.
pub fn requests_as_written()
    ensures count { (name : List ℕ) → request_of (line_answer (codes "COUNT " ++ name)) ≡ count name }
    ensures get { (name : List ℕ) (number : ℕ) → IsFileName name → 0 < number → number ≤ greatest_number → request_of (line_answer (codes "GET " ++ (name ++ 32 ∷ decimal number))) ≡ get name number }
    ensures next { request_of (line_answer (codes "NEXT")) ≡ next }
    ensures append { (name : List ℕ) → request_of (line_answer (codes "APPEND " ++ name)) ≡ append name }
    ensures replace { (name : List ℕ) (number : ℕ) → IsFileName name → 0 < number → number ≤ greatest_number → request_of (line_answer (codes "REPLACE " ++ (name ++ 32 ∷ decimal number))) ≡ replace name number }
    ensures no_number { request_of (line_answer (codes "GET A")) ≡ other }
    ensures zero { request_of (line_answer (codes "GET A 0")) ≡ other }
    ensures leading_zero { request_of (line_answer (codes "GET A 01")) ≡ other }
    ensures greatest { request_of (line_answer (codes "GET A 999999999")) ≡ get (codes "A") 999999999 }
    ensures too_great { request_of (line_answer (codes "GET A 1000000000")) ≡ other }
    ensures two_blanks { request_of (line_answer (codes "GET A  1")) ≡ other }
    ensures more_behind { request_of (line_answer (codes "GET A 1 ")) ≡ other }
    ensures next_blank { request_of (line_answer (codes "NEXT ")) ≡ other }
    ensures nothing { request_of (line_answer []) ≡ other }
    ensures number { request_of (code 0) ≡ other }
    ensures no_line { request_of no_line ≡ other }
{
    numbers_are_as_written();
    fields_are_as_written();
}

/// A session as it was worked by hand: two arrays are added to a file, counted and got, and one is replaced. The call does
/// nothing.
pub fn session_as_worked()
    ensures wait { protocol_step (line_answer (codes "APPEND A")) idle ≡ answers (code 0) (taking (codes "A") None) }
    ensures add { protocol_step (line_answer (codes "XY")) (taking (codes "A") None) ≡ changes (codes "A") None (line_answer (codes "XY")) }
    ensures any { protocol_step (line_answer (codes "NEXT")) (taking (codes "A") None) ≡ changes (codes "A") None (line_answer (codes "NEXT")) }
    ensures first { components_changed None [] (number_array (3 ∷ []) (pos 1 ∷ pos 2 ∷ pos 3 ∷ [])) ≡ Some (number_array (3 ∷ []) (pos 1 ∷ pos 2 ∷ pos 3 ∷ []) ∷ []) }
    ensures no_next { protocol_step (line_answer (codes "NEXT")) idle ≡ answers (code 2) idle }
    ensures count { protocol_step (line_answer (codes "COUNT A")) idle ≡ asks (codes "A") None }
    ensures two { component_asked None (scalar (pos 1) ∷ line_answer (codes "XY") ∷ []) ≡ Some (scalar (pos 2)) }
    ensures next { protocol_step (line_answer (codes "NEXT")) (holding (scalar (pos 2))) ≡ answers (scalar (pos 2)) idle }
    ensures get { protocol_step (line_answer (codes "GET A 1")) (holding (code 7)) ≡ asks (codes "A") (Some 1) }
    ensures third { component_asked (Some 3) (scalar (pos 1) ∷ line_answer (codes "XY") ∷ []) ≡ None }
    ensures last { component_asked (Some 2) (scalar (pos 1) ∷ line_answer (codes "XY") ∷ []) ≡ Some (line_answer (codes "XY")) }
    ensures none { component_asked (Some 0) (scalar (pos 1) ∷ []) ≡ None }
    ensures replaced { components_changed (Some 1) (scalar (pos 1) ∷ line_answer (codes "XY") ∷ []) (scalar (pos 7)) ≡ Some (scalar (pos 7) ∷ line_answer (codes "XY") ∷ []) }
    ensures not_there { components_changed (Some 3) (scalar (pos 1) ∷ line_answer (codes "XY") ∷ []) (scalar (pos 7)) ≡ None }
    ensures bytes { file_bytes (scalar (pos 7) ∷ line_answer (codes "XY") ∷ []) ≡ codes "N()7\nC(2)'XY'\n" }
    ensures no_bytes { file_bytes [] ≡ [] }
{}

/// The bytes of a component file are those of at most one list of components. The call does nothing.
pub fn files_are_read_in_one_way()
    ensures { (bytes : List ℕ) (arrays others : List PlainArray) → AreComponents bytes arrays → AreComponents bytes others → arrays ≡ others }
{}

/// Where a store tells its files, after an answer 0 to an array that a file waited for the file has the components that it
/// had with this one change, and all other files are as before. The call does nothing.
pub fn changes_are_kept<T: TextStore + Drop>()
    ensures { (old new : T) (name : List ℕ) (number : Option ℕ) (value : PlainArray) (arrays : List PlainArray) (before after : Told (List ℕ)) → IsChangeStep T.told T.faults old name number value (code 0) new
        → T.told old ≡ Some before → T.told new ≡ Some after → IsValue value → HasComponents (entry_of name_order before name) arrays → IsChanged before after name number arrays value }
{}

/// Where a store tells its files, after an answer 0 to a look what is held is what was asked of the components of the
/// file, and all files are as before. The call does nothing.
pub fn components_are_told<T: TextStore + Drop>()
    ensures { (old new : Filed T) (name : List ℕ) (number : Option ℕ) (arrays : List PlainArray) (before after : Told (List ℕ)) → IsAskedStep T.told T.faults old name number (code 0) new
        → T.told old.store ≡ Some before → T.told new.store ≡ Some after → HasComponents (entry_of name_order before name) arrays
        → (array : PlainArray) × (component_asked number arrays ≡ Some array) × (new.state ≡ holding array) × ((file : List ℕ) → entry_of name_order after file ≡ entry_of name_order before file) }
{}
