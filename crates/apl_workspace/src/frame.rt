ghost use Rattle.std.specs.Prelude.{◌≡◌, ◌+◌, ◌*◌, ◌++◌, ◌≤◌, ℕ, List as ListOf, [], OnOk, IfOk, fold};
ghost use Rattle.std.specs.Option.{option_copied, option_map, option_or, option_to_list};
ghost use Rattle.apl_arrays.specs.Limits.{most_elements};
ghost use Rattle.apl_workspace.specs.Frame.{argument_weight, frame_of, header_names, with_argument, with_labelled_line, with_local_name};
ghost use Rattle.apl_workspace.specs.Function.{IsFunction, PlainFunction};
ghost use Rattle.apl_workspace.specs.Label.{labelled_line};
ghost use Rattle.apl_workspace.specs.Meaning.{meaning_in, table_weight};

use crate::label::{LabelledLine, has_label};
use crate::local_names::LocalNames;
use crate::{Args, Function, Header, Meaning};
use apl_arrays::{Array, Name, WantOfMemory};

/// The frame of a function that is called with these arguments, in a table that is emptied first: the names of its header but
/// its own, and its labels, which hide those. It takes memory for the names where the table has no room for them.
#[tactic(auto, using(crate::proofs::FrameLaw::labels_put))]
pub fn frame_of(
    room: LocalNames,
    function: &Function,
    args: Args,
) -> Result<LocalNames, WantOfMemory>
    ensures { IfOk result (λ frame. frame ≡ frame_of function.now args) }
{
    let mut room = room;
    room.clear_for(names_of(function));
    let mut frame = header_names(room, function.header(), args)?;
    put_labels(&mut frame, function.labels())?;
    Ok(frame)
}

/// About how many names the frame of a function has.
fn names_of(function: &Function) -> usize {
    function.header().locals.as_slice().len() + function.labels().len() + 3
}

/// What the frame of a function that is called with these arguments weighs: they themselves, but those that a label hides.
pub fn frame_weight(function: &Function, left: Option<&Array>, right: Option<&Array>) -> usize
    requires { IsFunction function.now }
    ensures value { result ≡ table_weight (frame_of function.now (record { left = option_copied left.entry; right = option_copied right.entry })) }
    ensures within { result ≤ 2 * (most_elements + 1) }
{
    let header = function.header();
    let labels = function.labels();
    let left = argument_weight(labels, header.left, left);
    left + argument_weight(labels, header.right, right)
}

/// What an argument weighs in a frame with these labels: nothing where one of them hides it.
fn argument_weight(labels: &[LabelledLine], name: Option<Name>, value: Option<&Array>) -> usize
    ensures value { result ≡ argument_weight labels.now name (option_copied value.entry) }
    ensures within { result ≤ most_elements + 1 }
{
    let (Some(name), Some(value)) = (name, value) else {
        return 0;
    };
    if has_label(labels, &name) {
        0
    } else {
        value.items().len() + 1
    }
}

/// The names of a header but the function's own: the arguments with their values, the result and the local names without.
#[tactic(auto, using(crate::proofs::Entering::result_and_locals))]
fn header_names(room: LocalNames, header: &Header, args: Args) -> Result<LocalNames, WantOfMemory>
    requires { room ≡ [] }
    ensures { IfOk result (λ names. names ≡ header_names header.now args) }
{
    let mut names = room;
    put_argument(&mut names, header.left, args.left)?;
    put_argument(&mut names, header.right, args.right)?;
    put_result(&mut names, header.result)?;
    put_locals(&mut names, header.locals.as_slice())?;
    Ok(names)
}

/// Puts an argument in, where the header has it.
fn put_argument(
    names: &mut LocalNames,
    name: Option<Name>,
    value: Option<Array>,
) -> Result<(), WantOfMemory>
    requires { table_weight names.old ≤ most_elements + 1 }
    ensures ok { OnOk result (names.new ≡ with_argument names.old name value) }
    ensures weight { OnOk result (table_weight names.new ≤ table_weight names.old + (most_elements + 1)) }
{
    let Some(name) = name else {
        return Ok(());
    };
    match value {
        None => names.put_weightless(name, Meaning::Nothing),
        Some(value) => {
            let _ = value.items();
            names.put_light(name, Meaning::Value(value))
        }
    }
}

/// Puts the name of the result in, where the header has one; it has no value yet.
fn put_result(names: &mut LocalNames, name: Option<Name>) -> Result<(), WantOfMemory>
    ensures { OnOk result (names.new ≡ fold with_local_name names.old (option_to_list name)) }
{
    match name {
        None => Ok(()),
        Some(name) => names.put_weightless(name, Meaning::Nothing),
    }
}

/// Puts local names in that have no value yet.
#[tactic(auto, using(crate::proofs::Entering::locals_on))]
fn put_locals(names: &mut LocalNames, locals: &[Name]) -> Result<(), WantOfMemory>
    ensures { OnOk result (names.new ≡ fold with_local_name names.old locals.now) }
{
    for name in locals {
        names.put_weightless(*name, Meaning::Nothing)?;
    }
    Ok(())
}

/// Puts labels in.
#[tactic(auto, using(crate::proofs::Entering::labels_on))]
fn put_labels(names: &mut LocalNames, labels: &[LabelledLine]) -> Result<(), WantOfMemory>
    ensures { OnOk result (names.new ≡ fold with_labelled_line names.old labels.now) }
{
    for labelled in labels {
        names.put_weightless(labelled.label, Meaning::Label(labelled.line))?;
    }
    Ok(())
}

/// A name of a frame stands for the first line that has it as its label; where none has, for what the header makes of it.
/// The call does nothing.
pub fn labels_hide_names()
    ensures { (function : PlainFunction) (args : Args) (name : ListOf ℕ) → meaning_in (frame_of function args) name
        ≡ option_or (option_map Meaning.Label (labelled_line 1 function.lines name)) (meaning_in (header_names function.header args) name) }
{}
