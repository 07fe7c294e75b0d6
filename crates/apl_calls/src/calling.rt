ghost use Rattle.std.specs.Prelude.{◌≡◌, ◌≢◌, ◌-◌, ◌+◌, ◌<◌, ◌≤◌, [], false, IfErr, IfOk, IfSome, IsSome, OnErr, OnOk, drop, is_some, option_map, slice_get, true, unwrap_or};
ghost use Rattle.std.specs.Arc.{arc_value};
ghost use Rattle.std.specs.Option.{option_copied};
ghost use Rattle.apl_arrays.specs.List.{glyphs_in};
ghost use Rattle.apl_items.specs.Places.{OnWantOfMemory};
ghost use Rattle.line_trees.specs.Trees.{line_tree_of};
ghost use Rattle.apl_arrays.specs.declared.report.Report.TheVariants as report;
ghost use Rattle.apl_meaning.specs.Calls.{result_of};
ghost use Rattle.apl_meaning.specs.Meaning.{ran};
ghost use Rattle.apl_meaning.specs.Reading.{read_with};
ghost use Rattle.apl_meaning.specs.Statements.{is_misplaced, line_outcome, text_outcome};
ghost use Rattle.apl_meaning.specs.Tasks.{begun, immediate, in_function, text_at};
ghost use Rattle.apl_values.specs.Places.{plain_place};
ghost use Rattle.apl_values.specs.Parts.{IsNotRead, IsReadFrom, IsLineReading, reading_statement, reading_tree};
ghost use Rattle.apl_statements.specs.Evaluating.{evaluation_of, innermost_function, line_of_innermost, plain_next, plain_purpose, purpose_in};
ghost use Rattle.apl_statements.specs.Moves.{Comes, Moves, statement_leads};
ghost use Rattle.apl_statements.specs.Sound.{IsEvaluation, IsFlow};
ghost use Rattle.apl_statements.specs.Stack.{behind, from_end, from_line, onward};
ghost use Rattle.apl_statements.specs.Work.{IsAfresh, caller_parts, flow_work, machine_work, parts_left};
ghost use Rattle.apl_statements.specs.declared.flow.Flow.TheVariants as flow;
ghost use Rattle.apl_calls.specs.Ended.{line_behind};
ghost use Rattle.apl_calls.specs.Waitings.{standing_on};

use crate::seen::{following, value_seen};
use crate::waiting::{function_of, has_reading, header_of, keep_in, line_numbered, stand_at};
use apl_arrays::{Array, Fail, Line, Report, WantOfMemory};
use apl_statements::{Evaluation, Flow, Interpreter, Next, Purpose};
use apl_values::{KnownLine, LineReading, Place, StackValue, read};
use apl_workspace::Function;
use line_trees::Form;
use std::alloc::Global;
use std::sync::Arc;

/// Begins the line as read. INTERRUPT where no statement may be begun, else SYNTAX ERROR where the line may not stand there,
/// each also where there is no memory.
pub fn begin_input(interpreter: &mut Interpreter, reading: LineReading) -> Result<Flow, Fail>
    requires sound { IsLineReading reading }
    ensures comes { Comes interpreter.old (statement_leads interpreter.old (λ s. begun (line_outcome ran immediate (line_tree_of (reading_tree reading))) s)) 0 interpreter.new result }
    ensures memory { OnWantOfMemory result ((0 < interpreter.old.statements) × (is_misplaced immediate (line_tree_of (reading_tree reading)) ≡ false)) }
    ensures sound { IfOk result (IsFlow interpreter.new) }
{
    let room = count_statement(interpreter)?;
    begin_read(interpreter, room, Place::Immediate, reading)
}

/// Begins a text at a place. INTERRUPT where no statement may be begun, also where there is no memory.
pub fn begin_text(interpreter: &mut Interpreter, place: Place, text: &Line) -> Result<Flow, Fail>
    ensures comes { Comes interpreter.old (statement_leads interpreter.old (λ s. ran (text_at (plain_place place) text.now.items) s)) 0 interpreter.new result }
    ensures memory { OnWantOfMemory result (0 < interpreter.old.statements) }
    ensures sound { IfOk result (IsFlow interpreter.new) }
    ensures falls { IfOk result (λ next. flow_work interpreter.new next ≤ machine_work interpreter.old) }
{
    let room = count_statement(interpreter)?;
    let reading = read(interpreter.alloc, &interpreter.workspace, text)?;
    begin_read(interpreter, room, place, reading)
}

// A statement is begun, and has a list for its values; INTERRUPT where none may be.
fn count_statement(interpreter: &mut Interpreter) -> Result<Vec<StackValue>, Report>
    ensures ok { OnOk result ((0 < interpreter.old.statements) × (interpreter.new ≡ record interpreter.old { statements = interpreter.old.statements - 1 })) }
    ensures err { OnErr result (interpreter.new ≡ interpreter.old) }
    ensures refused { IfErr result (λ why. (why ≡ report.Interrupt) × (interpreter.old.statements ≡ 0)) }
{
    count_one(interpreter)?;
    Ok(interpreter.take_room())
}

/// A statement is begun; INTERRUPT where none may be.
pub fn count_one(interpreter: &mut Interpreter) -> Result<(), Report>
    ensures ok { OnOk result ((0 < interpreter.old.statements) × (interpreter.new ≡ record interpreter.old { statements = interpreter.old.statements - 1 })) }
    ensures err { OnErr result (interpreter.new ≡ interpreter.old) }
    ensures refused { IfErr result (λ why. (why ≡ report.Interrupt) × (interpreter.old.statements ≡ 0)) }
{
    if interpreter.statements == 0 {
        return Err(Report::Interrupt);
    }
    interpreter.statements -= 1;
    Ok(())
}

// Begins a statement that was read, with a list for its values. SYNTAX ERROR where it may not stand there, also where there is no
// memory to share it.
fn begin_read(
    interpreter: &Interpreter,
    room: Vec<StackValue>,
    place: Place,
    reading: LineReading,
) -> Result<Flow, Fail>
    requires sound { IsLineReading reading }
    ensures comes { Comes interpreter.now (statement_leads interpreter.now (λ s. line_outcome ran (plain_place place) (line_tree_of (reading_tree reading)) s)) 0 interpreter.now result }
    ensures memory { OnWantOfMemory result (is_misplaced (plain_place place) (line_tree_of (reading_tree reading)) ≡ false) }
    ensures sound { IfOk result (IsFlow interpreter.now) }
    ensures afresh { IfOk result IsAfresh }
{
    if reading.is_misplaced(place) {
        drop(reading);
        return Err(Fail::Report(Report::Syntax));
    }
    let reading = shared(interpreter.alloc, reading)?;
    begin_reading(interpreter, room, place, reading)
}

// Begins a statement that was read and is shared, with a list for its values. It takes no memory.
fn begin_reading(
    interpreter: &Interpreter,
    room: Vec<StackValue>,
    place: Place,
    reading: Arc<LineReading>,
) -> Result<Flow, Fail>
    requires sound { IsLineReading (arc_value reading) }
    ensures comes { Comes interpreter.now (statement_leads interpreter.now (λ s. line_outcome ran (plain_place place) (line_tree_of (reading_tree (arc_value reading))) s)) 0 interpreter.now result }
    ensures memory { OnWantOfMemory result ⊥ }
    ensures sound { IfOk result (IsFlow interpreter.now) }
    ensures afresh { IfOk result IsAfresh }
{
    if reading.is_misplaced(place) {
        return Err(Fail::Report(Report::Syntax));
    }
    match purpose_of(&reading) {
        None => Ok(Flow::Leads(Next::GoesOn)),
        Some(purpose) => Ok(Flow::Begins(Evaluation::new(room, place, purpose, reading))),
    }
}

/// A statement led somewhere: the line is over, or a line of the function under way follows, or the function is left.
/// INTERRUPT where a line follows and no statement may be begun, also where there is no memory.
pub fn follow(interpreter: &mut Interpreter, next: Next) -> Result<Flow, Fail>
    ensures comes { Comes interpreter.old (λ s. behind interpreter.old.stack (plain_next next) s) 0 interpreter.new result }
    ensures memory { IsSome (line_behind interpreter.old.stack (plain_next next)) → OnWantOfMemory result (0 < interpreter.old.statements) }
    ensures sound { IfOk result (IsFlow interpreter.new) }
    ensures falls { IfOk result (λ later. flow_work interpreter.new later < flow_work interpreter.old (flow.Leads next)) }
{
    interpreter.rules();
    match interpreter.callers.last() {
        None => Ok(Flow::Ends),
        Some(waiting) => {
            let number = following(waiting.number, next);
            begin_line(interpreter, number)
        }
    }
}

/// Begins a line of the function under way, or leaves it where it has no line of this number.
pub fn begin_line(interpreter: &mut Interpreter, number: usize) -> Result<Flow, Fail>
    requires some { interpreter.old.stack ≢ [] }
    ensures comes { Comes interpreter.old (from_line interpreter.old.stack number) 0 interpreter.new result }
    ensures memory { IsSome (line_of_innermost interpreter.old.stack number) → OnWantOfMemory result (0 < interpreter.old.statements) }
    ensures sound { IfOk result (IsFlow interpreter.new) }
    ensures afresh { IfOk result IsAfresh }
    ensures falls { IfOk result (λ next. flow_work interpreter.new next ≤ machine_work interpreter.old) }
    ensures begun { IsSome (line_of_innermost interpreter.old.stack number) → IfOk result (λ next. flow_work interpreter.new next + 2 ≤ machine_work interpreter.old) }
{
    if !has_line(interpreter, number) {
        return Ok(Flow::Begins(leave(interpreter)?));
    }
    begin_line_there(interpreter, number)
}

/// Begins a line that the function under way has.
pub fn begin_line_there(interpreter: &mut Interpreter, number: usize) -> Result<Flow, Fail>
    requires { IsSome (line_of_innermost interpreter.old.stack number) }
    ensures comes { Comes interpreter.old (from_line interpreter.old.stack number) 0 interpreter.new result }
    ensures memory { OnWantOfMemory result (0 < interpreter.old.statements) }
    ensures sound { IfOk result (IsFlow interpreter.new) }
    ensures afresh { IfOk result IsAfresh }
    ensures falls { IfOk result (λ next. flow_work interpreter.new next + 2 ≤ machine_work interpreter.old) }
{
    let keeps = keeps_from(interpreter, number);
    stand_at_line(interpreter, number);
    begin_text_of_line(interpreter, number, keeps)
}

/// Whether the readings of lines are kept from this line on: the function goes back to it, or keeps some already. One that goes
/// straight through its lines needs none of them again.
pub fn keeps_from(interpreter: &Interpreter, number: usize) -> bool {
    match interpreter.callers.last() {
        None => false,
        Some(waiting) => number <= waiting.number || !waiting.readings.is_empty(),
    }
}

/// The function under way is at this line of it.
pub fn stand_at_line(interpreter: &mut Interpreter, number: usize)
    requires { IsSome (line_of_innermost interpreter.old.stack number) }
    ensures { interpreter.new ≡ record interpreter.old { stack = standing_on number interpreter.old.stack } }
{
    stand_at(&mut interpreter.callers, number);
}

// Begins the text of a line of the function under way, and keeps its reading where it is asked to.
fn begin_text_of_line(
    interpreter: &mut Interpreter,
    number: usize,
    keeps: bool,
) -> Result<Flow, Fail>
    requires { IsSome (line_of_innermost interpreter.old.stack number) }
    ensures comes { Comes interpreter.old (statement_leads interpreter.old (λ s. begun (text_outcome ran in_function (unwrap_or (line_of_innermost interpreter.old.stack number) [])) s)) 0 interpreter.new result }
    ensures memory { OnWantOfMemory result (0 < interpreter.old.statements) }
    ensures sound { IfOk result (IsFlow interpreter.new) }
    ensures afresh { IfOk result IsAfresh }
    ensures falls { IfOk result (λ next. flow_work interpreter.new next + 2 ≤ machine_work interpreter.old) }
{
    let room = count_statement(interpreter)?;
    let reading = reading_of_line(interpreter, number, keeps)?;
    begin_reading(interpreter, room, Place::InFunction, reading)
}

/// Whether the function under way has a line of this number. A line whose reading is kept is there.
pub fn has_line(interpreter: &Interpreter, number: usize) -> bool
    ensures { result ≡ is_some (line_of_innermost interpreter.now.stack number) }
{
    keeps_line(interpreter, number) || line_under_way(interpreter, number).is_some()
}

// Whether the reading of a line of this number is kept.
fn keeps_line(interpreter: &Interpreter, number: usize) -> bool
    ensures { result ≡ true → is_some (line_of_innermost interpreter.now.stack number) ≡ true }
{
    match interpreter.callers.last() {
        None => false,
        Some(waiting) => has_reading(&waiting.readings, number),
    }
}

// The line of this number of the function under way.
fn line_under_way(interpreter: &Interpreter, number: usize) -> Option<&Line>
    ensures { option_map glyphs_in (option_copied result) ≡ line_of_innermost interpreter.now.stack number }
{
    line_numbered(function_under_way(interpreter)?, number)
}

// The function under way.
fn function_under_way(interpreter: &Interpreter) -> Option<&Function>
    ensures { option_copied result ≡ option_map (λ w. w.function) (slice_get interpreter.now.stack 0) }
{
    let waiting = interpreter.callers.last()?;
    function_of(&interpreter.workspace, &waiting.name)
}

/// The reading of a line: one that is kept, or a new one, which is kept where it is asked to.
pub fn reading_of_line(
    interpreter: &mut Interpreter,
    number: usize,
    keeps: bool,
) -> Result<Arc<LineReading>, Fail>
    requires there { IsSome (line_of_innermost interpreter.old.stack number) }
    ensures read { IfOk result (λ reading. IsReadFrom interpreter.old.workspace (unwrap_or (line_of_innermost interpreter.old.stack number) []) (arc_value reading)) }
    ensures refused { IfErr result (IsNotRead (read_with interpreter.old.workspace (unwrap_or (line_of_innermost interpreter.old.stack number) []))) }
    ensures same { interpreter.new ≡ interpreter.old }
{
    if let Some(reading) = kept_reading(interpreter, number) {
        return Ok(twin(reading)?);
    }
    let reading = read_line(interpreter, number)?;
    if keeps {
        keep_reading(interpreter, number, twin(&reading)?)?;
    }
    Ok(reading)
}

// Reads a line of the function under way, unless its text is known.
fn read_line(interpreter: &mut Interpreter, number: usize) -> Result<Arc<LineReading>, Fail>
    requires there { IsSome (line_of_innermost interpreter.old.stack number) }
    ensures read { IfOk result (λ reading. IsReadFrom interpreter.old.workspace (unwrap_or (line_of_innermost interpreter.old.stack number) []) (arc_value reading)) }
    ensures refused { IfErr result (IsNotRead (read_with interpreter.old.workspace (unwrap_or (line_of_innermost interpreter.old.stack number) []))) }
    ensures same { interpreter.new ≡ interpreter.old }
{
    if let Some(reading) = known_line(interpreter, number) {
        return Ok(twin(reading)?);
    }
    learn_line(interpreter, number)
}

// The reading of a line of the function under way, where its text is known.
fn known_line(interpreter: &Interpreter, number: usize) -> Option<&Arc<LineReading>>
    requires there { IsSome (line_of_innermost interpreter.now.stack number) }
    ensures { IfSome result (λ reading. IsReadFrom interpreter.now.workspace (unwrap_or (line_of_innermost interpreter.now.stack number) []) (arc_value reading.now)) }
{
    interpreter.known_reading(line_under_way(interpreter, number)?)
}

// Reads a line of the function under way, whose text is known from now on.
fn learn_line(interpreter: &mut Interpreter, number: usize) -> Result<Arc<LineReading>, Fail>
    requires there { IsSome (line_of_innermost interpreter.old.stack number) }
    ensures read { IfOk result (λ reading. IsReadFrom interpreter.old.workspace (unwrap_or (line_of_innermost interpreter.old.stack number) []) (arc_value reading)) }
    ensures refused { IfErr result (IsNotRead (read_with interpreter.old.workspace (unwrap_or (line_of_innermost interpreter.old.stack number) []))) }
    ensures same { interpreter.new ≡ interpreter.old }
{
    let known = read_text(interpreter, number)?;
    let reading = twin(known.reading());
    interpreter.know(known);
    Ok(reading?)
}

// The reading that is kept of a line.
fn kept_reading(interpreter: &Interpreter, number: usize) -> Option<&Arc<LineReading>>
    requires there { IsSome (line_of_innermost interpreter.now.stack number) }
    ensures { IfSome result (λ kept. IsReadFrom interpreter.now.workspace (unwrap_or (line_of_innermost interpreter.now.stack number) []) (arc_value kept.now)) }
{
    let waiting = interpreter.callers.last()?;
    waiting.readings.get(number - 1)?.as_ref()
}

// Reads the text of a line of the function under way.
fn read_text(interpreter: &Interpreter, number: usize) -> Result<KnownLine, Fail>
    requires there { IsSome (line_of_innermost interpreter.now.stack number) }
    ensures read { IfOk result (IsReadFrom interpreter.now.workspace (unwrap_or (line_of_innermost interpreter.now.stack number) [])) }
    ensures refused { IfErr result (IsNotRead (read_with interpreter.now.workspace (unwrap_or (line_of_innermost interpreter.now.stack number) []))) }
{
    match line_under_way(interpreter, number) {
        None => unreachable!(),
        Some(line) => KnownLine::read(interpreter.alloc, &interpreter.workspace, line),
    }
}

// Keeps the reading of a line.
fn keep_reading(
    interpreter: &mut Interpreter,
    number: usize,
    reading: Arc<LineReading>,
) -> Result<(), WantOfMemory>
    requires there { IsSome (line_of_innermost interpreter.old.stack number) }
    requires read { IsReadFrom interpreter.old.workspace (unwrap_or (line_of_innermost interpreter.old.stack number) []) (arc_value reading) }
    ensures { interpreter.new ≡ interpreter.old }
{
    keep_in(&mut interpreter.callers, number - 1, reading)
}

/// Leaves the function under way with its result, and the statement that called it goes on.
pub fn leave(interpreter: &mut Interpreter) -> Result<Evaluation, WantOfMemory>
    requires some { interpreter.old.stack ≢ [] }
    ensures comes { IfOk result (λ e. Moves interpreter.old (from_end interpreter.old.stack) 0 interpreter.new (λ s. onward (evaluation_of interpreter.new.workspace e) interpreter.new.stack s)) }
    ensures sound { IfOk result (IsEvaluation interpreter.new.workspace) }
    ensures stack { OnOk result (interpreter.new.stack ≡ drop 1 interpreter.old.stack) }
    ensures statements { OnOk result (interpreter.new.statements ≡ interpreter.old.statements) }
    ensures parts { IfOk result (λ e. parts_left e ≡ caller_parts interpreter.old.stack) }
{
    let found = result_under_way(interpreter)?;
    interpreter.workspace.pop_frame();
    match interpreter.callers.pop() {
        None => unreachable!(),
        Some(waiting) => {
            let mut caller = waiting.caller;
            caller.resume(found)?;
            Ok(caller)
        }
    }
}

// The result of the function under way, if it has one.
fn result_under_way(interpreter: &Interpreter) -> Result<Option<Array>, WantOfMemory>
    requires some { interpreter.now.stack ≢ [] }
    ensures { IfOk result (λ found. found ≡ result_of (innermost_function interpreter.now.stack) interpreter.now.workspace) }
{
    match function_under_way(interpreter) {
        None => Ok(None),
        Some(function) => match &header_of(function).result {
            None => Ok(None),
            Some(name) => value_seen(interpreter.alloc, interpreter.workspace.look(name)),
        },
    }
}

// A reading that may be shared.
fn shared(alloc: Global, reading: LineReading) -> Result<Arc<LineReading>, WantOfMemory>
    ensures { IfOk result (λ shared. arc_value shared ≡ reading) }
{
    Ok(Arc::new(alloc, reading)?)
}

/// The same reading once more.
pub fn twin(reading: &Arc<LineReading>) -> Result<Arc<LineReading>, WantOfMemory>
    ensures { IfOk result (λ twin. arc_value twin ≡ arc_value reading.now) }
{
    Ok(reading.clone()?)
}

/// What becomes of the value of a statement; none where it is empty.
pub fn purpose_of(reading: &LineReading) -> Option<Purpose>
    requires { IsLineReading reading.now }
    ensures { option_map plain_purpose result ≡ purpose_in (reading_statement reading.now) }
{
    match reading.form {
        Form::Nothing => None,
        Form::Branch(_) => Some(Purpose::Branches),
        Form::Value(_) => Some(Purpose::Prints(reading.is_silent())),
        Form::Execute(_) => Some(Purpose::Executes),
    }
}
