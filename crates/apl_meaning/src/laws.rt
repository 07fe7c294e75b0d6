//! What holds of every line.
ghost use Rattle.std.specs.Prelude.{◌≡◌, ◌<◌, ◌≤◌, ◌++◌, ◌∷◌, ℕ, List, []};
ghost use Rattle.apl_workspace.specs.Workspace.{PlainWorkspace};
ghost use Rattle.line_trees.specs.Trees.{Expr, LineTree, placed};
ghost use Rattle.sv_events.specs.Answer.{PlainAnswer};
ghost use Rattle.apl_meaning.specs.State.{State, and_then, gives, state_of};
ghost use Rattle.apl_workspace.specs.Function.{PlainFunction};
ghost use Rattle.apl_meaning.specs.Statements.{line_outcome, text_outcome};
ghost use Rattle.apl_meaning.specs.Tasks.{Place, Run, Task, begun, immediate, line_numbered, lines_from, text_at};
ghost use Rattle.apl_meaning.specs.Meaning.{closed, function_line, mean, ran, run_below, start_of};
ghost use Rattle.apl_meaning.specs.Expressions.{evaluated};
ghost use Rattle.apl_meaning.specs.Nodes.{after_nodes, found_in, ready};
ghost use Rattle.apl_meaning.specs.Laws.{BeginsWithOpening, GoesOnIn, IsAfter, IsOver, SharesNothing, Takes, and_more, waiting_act};

/// With more answers than a line takes, all is as without them, and they come back. The call does nothing.
#[tactic(auto, using(crate::proofs::Lines::rest_comes_back))]
pub fn answers_that_are_not_taken_come_back()
    ensures { (tree : LineTree) (line : List ℕ) (w : PlainWorkspace) (answers more : List PlainAnswer) (left : ℕ)
        → IsOver (mean tree line w answers left) → mean tree line w (answers ++ more) left ≡ and_more more (mean tree line w answers left) }
{}

/// What a line printed and asked, and what was counted, with some answers is the beginning of what it does with more. The
/// call does nothing.
#[tactic(auto, using(crate::proofs::Lines::comes_first))]
pub fn fewer_answers_are_the_beginning()
    ensures { (tree : LineTree) (line : List ℕ) (w : PlainWorkspace) (answers more : List PlainAnswer) (left : ℕ)
        → IsAfter (state_of (mean tree line w answers left)) (state_of (mean tree line w (answers ++ more) left)) }
{}

/// Where a task finds fewer statements left than it may begin, it may as well be given more of them. The call does
/// nothing.
pub fn enough_statements_are_enough()
    ensures { (most more : ℕ) (task : Task) (s : State) → s.statements < most → most ≤ more → run_below most task s ≡ run_below more task s }
{}

/// What comes of tasks, and of a line, with no bound in it: the lines of a function are begun one after another, and a
/// text where it stands. The call does nothing.
pub fn tasks_need_no_bound()
    ensures lines { (function : PlainFunction) (number : ℕ) (s : State) → ran (lines_from function number) s ≡ function_line ran function number (line_numbered function.lines number) s }
    ensures text { (place : Place) (text : List ℕ) (s : State) → ran (text_at place text) s ≡ begun (text_outcome ran place text) s }
    ensures line { (tree : LineTree) (line : List ℕ) (w : PlainWorkspace) (answers : List PlainAnswer) (left : ℕ)
        → mean tree line w answers left ≡ closed (begun (line_outcome ran immediate tree) (start_of line w answers left)) }
{}

/// The nodes of an expression, in their order, give what the expression gives. The call does nothing.
pub fn nodes_give_what_trees_give()
    ensures { (run : Run) (e : Expr) (s : State) → and_then (after_nodes run (placed [] e).0 (ready []) s) (λ v t. gives (found_in v) t) ≡ evaluated run e s }
{}

/// Where no name is shared, the first act that a line asks, if it asks one, is an offer or a query. The call does
/// nothing.
pub fn offers_and_queries_come_first()
    ensures { (tree : LineTree) (line : List ℕ) (w : PlainWorkspace) (answers : List PlainAnswer) (left : ℕ)
        → SharesNothing w → BeginsWithOpening (state_of (mean tree line w answers left)).asked (waiting_act (mean tree line w answers left)) }
{}

/// A line takes its answers one by each act that it asks, of which none is a leave, and at most one answer is reported: that
/// ends the line. The call does nothing.
pub fn answers_are_taken_one_by_one()
    ensures { (tree : LineTree) (line : List ℕ) (w : PlainWorkspace) (answers : List PlainAnswer) (left : ℕ) → Takes (start_of line w answers left) (mean tree line w answers left) }
{}

/// With an answer more, the act that waits is the next that is asked and answered. The call does nothing.
pub fn the_act_that_waits_is_next()
    ensures { (tree : LineTree) (line : List ℕ) (w : PlainWorkspace) (answers more : List PlainAnswer) (answer : PlainAnswer) (left : ℕ)
        → GoesOnIn (mean tree line w answers left) (mean tree line w (answers ++ answer ∷ more) left) }
{}
