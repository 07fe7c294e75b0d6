//! What holds of the steps of a stack: none changes what is still to come.
ghost use Rattle.std.specs.Prelude.{◌≡◌, ◌∷◌, ◌++◌, ℕ, ℤ, List, None, Option, Some, false, true};
ghost use Rattle.apl_arrays.specs.Array.{PlainArray};
ghost use Rattle.apl_workspace.specs.Function.{PlainFunction};
ghost use Rattle.apl_workspace.specs.Workspace.{look};
ghost use Rattle.apl_workspace.specs.declared.args.Args.{Args};
ghost use Rattle.apl_workspace.specs.declared.meaning.Meaning.TheVariants as meaning;
ghost use Rattle.line_trees.specs.Nodes.{PlainNode};
ghost use Rattle.line_trees.specs.Trees.{Expr, branch, execute, whole};
ghost use Rattle.apl_meaning.specs.State.{Outcome, State, and_then, gives};
ghost use Rattle.apl_meaning.specs.Tasks.{Place, begun, in_function, line_numbered};
ghost use Rattle.apl_meaning.specs.Calls.{call, entering, leaving, takes};
ghost use Rattle.apl_meaning.specs.Expressions.{Found, valued};
ghost use Rattle.apl_meaning.specs.Nodes.{leaving_values, step_by};
ghost use Rattle.apl_meaning.specs.Meaning.{ran, standing_at};
ghost use Rattle.apl_meaning.specs.Printing.{function_line_shown};
ghost use Rattle.apl_meaning.specs.Queries.{names_told, parties_told};
ghost use Rattle.apl_meaning.specs.Statements.{is_silent, statement_outcome, text_outcome};
ghost use Rattle.apl_meaning.specs.Variables.{items_assignment, reference};
ghost use Rattle.apl_meaning.specs.Deeds.{Deed};
ghost use Rattle.apl_meaning.specs.Naming.{Naming};
ghost use Rattle.apl_values.specs.Pending.{act_asked_for, assigned_giving, in_rows, names_asked, parties_asked, refers, replaces, sets};
ghost use Rattle.apl_values.specs.Rows.{PlainNameRow, asks_act, rest_of_rows, row_zeros};
ghost use Rattle.apl_statements.specs.Stack.{PlainCaller, PlainEvaluation, PlainWaiting, after_step, at_line, begun_at, behind, branches, calling, carried_on, executes, onward, onward_lines, prints, rest_of_statement, resumed};

/// A node makes its step, and what it leaves on the stack is what the statement goes on with; the end of a function gives
/// its caller the result. The call does nothing.
pub fn steps_change_nothing_to_come()
    ensures node { (e : PlainEvaluation) (n : PlainNode) (nodes : List PlainNode) (ws : List PlainWaiting) (s : State) → e.nodes ≡ n ∷ nodes
        → onward e ws s ≡ and_then (step_by ran n e.values s) (λ values t. onward (after_step e nodes values) ws t) }
    ensures value { (e : PlainEvaluation) (nodes : List PlainNode) (values : List PlainArray) (shown : List ℕ) (ws : List PlainWaiting) (found : Outcome Found)
        → and_then (leaving_values values found) (λ v t. onward (after_step e nodes v) ws t) ≡ carried_on found (calling e nodes values shown) ws }
    ensures end { (function : PlainFunction) (number : ℕ) (caller : PlainCaller) (ws : List PlainWaiting) (s : State) → line_numbered function.lines number ≡ None
        → onward_lines function number caller ws s ≡ and_then (leaving function caller.here s) (λ found t. onward (resumed found caller) ws t) }
{}

/// A call enters a function, whose first line is next; a line of a function is begun, and what waits under it follows. The
/// call does nothing.
pub fn calls_and_lines_are_stacked()
    ensures call { (caller : PlainCaller) (ws : List PlainWaiting) (function : PlainFunction) (name : List ℕ) (args : Args) (s : State) → look s.workspace name ≡ meaning.Function function → takes function.header args ≡ true → caller.here ≡ s.here
        → carried_on (call ran name args s) caller ws ≡ and_then (entering name args s) (λ _ t. onward_lines function 1 caller ws t) }
    ensures line { (function : PlainFunction) (number : ℕ) (line : List ℕ) (caller : PlainCaller) (ws : List PlainWaiting) (s : State) → line_numbered function.lines number ≡ Some line
        → onward_lines function number caller ws s ≡ and_then (begun (text_outcome ran in_function line) (standing_at (function_line_shown function.header.name number line) s)) (λ next t. behind (at_line function number caller ∷ ws) next t) }
{}

/// A statement whose first node is next is what it means. The call does nothing.
pub fn statements_begin_at_their_first_node()
    ensures branch { (place : Place) (e : Expr) (s : State) → rest_of_statement (begun_at place branches e) s ≡ statement_outcome ran place (branch e) s }
    ensures whole { (place : Place) (e : Expr) (s : State) → rest_of_statement (begun_at place (prints (is_silent e)) e) s ≡ statement_outcome ran place (whole e) s }
    ensures execute { (place : Place) (e : Expr) (s : State) → rest_of_statement (begun_at place executes e) s ≡ statement_outcome ran place (execute e) s }
{}

/// A reference to a shared name, an assignment to one or to its items, and a query leave their act open. The call does
/// nothing.
pub fn shared_names_open_acts()
    ensures reference { (name : List ℕ) (copy : Option PlainArray) (s : State) → look s.workspace name ≡ meaning.Shared copy → valued (reference name s) ≡ act_asked_for (refers name) s }
    ensures assignment { (name : List ℕ) (value other : PlainArray) (copy : Option PlainArray) (s : State) → look s.workspace name ≡ meaning.Shared copy → assigned_giving name value other s ≡ act_asked_for (sets name value other) s }
    ensures items { (name : List ℕ) (subs : List (Option PlainArray)) (right : PlainArray) (copy : Option PlainArray) (s : State) → look s.workspace name ≡ meaning.Shared copy
        → and_then (items_assignment name subs right s) (λ _ t. gives (Some right) t) ≡ act_asked_for (replaces name subs right) s }
    ensures parties { (s : State) → valued (parties_told s) ≡ act_asked_for parties_asked s }
    ensures names { (party : ℕ) (s : State) → valued (names_told party s) ≡ act_asked_for (names_asked party) s }
{}

/// A row of names that asks an act leaves it open, behind the numbers of the rows before it; one that asks none tells
/// zeros. The call does nothing.
pub fn rows_open_acts()
    ensures act { (deed : Deed) (names : Naming) (numbers : List ℤ) (rows : List PlainNameRow) (shape : List ℕ) (s : State) → asks_act s.workspace (names, deed) ≡ true
        → rest_of_rows numbers ((names, deed) ∷ rows) shape s ≡ act_asked_for (in_rows numbers ((names, deed) ∷ rows) shape) s }
    ensures none { (deed : Deed) (names : Naming) (numbers : List ℤ) (rows : List PlainNameRow) (shape : List ℕ) (s : State) → asks_act s.workspace (names, deed) ≡ false
        → rest_of_rows numbers ((names, deed) ∷ rows) shape s ≡ rest_of_rows (numbers ++ row_zeros deed) rows shape s }
{}
