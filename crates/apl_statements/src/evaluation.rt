ghost use Rattle.std.specs.Prelude.{◌≡◌, ◌<◌, ◌++◌, ◌∷◌, [], None, true, false, IfErr, IfOk, IfSome, OnOk, is_some, length, map, nat_lt, option_map, option_to_list};
ghost use Rattle.std.specs.Arc.{arc_value};
ghost use Rattle.apl_arrays.specs.declared.report.Report.TheVariants as report;
ghost use Rattle.apl_meaning.specs.Nodes.{popped};
ghost use Rattle.apl_values.specs.Values.{IsStackValue, stack_value, settled};
ghost use Rattle.apl_statements.specs.Sound.{IsEvaluation};
ghost use Rattle.apl_statements.specs.Operands.{operand_count, operand_list};
ghost use Rattle.apl_statements.specs.Holding.{IsResumedWith, IsWithValues, stack_values, parts_of};

use apl_arrays::{Array, Report, WantOfMemory};
use apl_selection::Subs;
use apl_values::{LineReading, Part, Place, StackValue, owned, settle};
use apl_workspace::Workspace;
use std::alloc::Global;
use std::sync::Arc;

/// What becomes of the value of a statement: it leads to a line, it is printed unless the statement is silent, or it is
/// executed.
#[derive(Clone, Copy, Debug, PartialEq, Eq)]
pub enum Purpose {
    Branches,
    Prints(bool),
    Executes,
}

/// The arguments of a function, not yet looked at: the left one and the axis where they are there.
#[derive(Debug, Drop)]
pub struct Operands {
    pub left: Option<StackValue>,
    pub axis: Option<StackValue>,
    pub right: StackValue,
}

/// A statement under evaluation: its place, what becomes of its value, its parts and the one that is next, and the values
/// that no part has taken yet. Where a function gave none, a value is wanting.
#[derive(Debug, Drop)]
pub struct Evaluation {
    pub place: Place,
    pub purpose: Purpose,
    pub reading: Arc<LineReading>,
    pub at: usize,
    pub values: Vec<StackValue>,
    pub is_wanting: bool,
}

impl Evaluation {
    /// An expression from its first part on, with a list for its values, which is emptied.
    pub fn new(
        room: Vec<StackValue>,
        place: Place,
        purpose: Purpose,
        reading: Arc<LineReading>,
    ) -> Evaluation
        ensures place { result.place ≡ place }
        ensures purpose { result.purpose ≡ purpose }
        ensures reading { arc_value result.reading ≡ arc_value reading }
        ensures at { result.at ≡ 0 }
        ensures values { result.values.items ≡ [] }
        ensures there { result.is_wanting ≡ false }
    {
        let mut values = room;
        values.clear();
        Evaluation {
            place,
            purpose,
            reading,
            at: 0,
            values,
            is_wanting: false,
        }
    }

    /// The parts.
    pub fn parts(&self) -> &[Part]
        ensures { result.now ≡ parts_of self.now }
    {
        &self.reading.parts
    }

    /// Whether a part is left.
    pub fn goes_on(&self) -> bool
        ensures { result ≡ nat_lt self.now.at (length (parts_of self.now)) }
    {
        self.at < self.reading.parts.len()
    }

    /// Puts a value behind the others. It takes memory for it.
    pub fn push(&mut self, value: StackValue) -> Result<(), WantOfMemory>
        ensures { OnOk result (IsWithValues self.old (self.old.values.items ++ value ∷ []) self.new) }
    {
        self.values.reserve(1)?;
        self.values.push_reserved(value);
        Ok(())
    }

    /// Takes the newest value; VALUE ERROR where there is none.
    pub fn take(&mut self) -> Result<StackValue, Report>
        ensures taken { IfOk result (λ value. self.old.values.items ≡ self.new.values.items ++ value ∷ []) }
        ensures same { self.new ≡ record self.old { values = self.new.values } }
        ensures none { IfErr result (λ why. (why ≡ report.Value) × (self.old.values.items ≡ [])) }
    {
        match self.values.pop() {
            Some(value) => Ok(value),
            None => Err(Report::Value),
        }
    }

    /// Takes the newest value where one is asked for.
    pub fn take_where(&mut self, is_there: bool) -> Result<Option<StackValue>, Report>
        ensures taken { IfOk result (λ value. (is_some value ≡ is_there) × (self.old.values.items ≡ self.new.values.items ++ option_to_list value)) }
        ensures same { self.new ≡ record self.old { values = self.new.values } }
        ensures none { IfErr result (λ why. (why ≡ report.Value) × (is_there ≡ true) × (self.old.values.items ≡ [])) }
    {
        if is_there {
            Ok(Some(self.take()?))
        } else {
            Ok(None)
        }
    }

    /// Takes the arguments of a function, the left one and the axis where they are asked for; VALUE ERROR where a value
    /// lacks.
    pub fn take_operands(&mut self, has_left: bool, has_axis: bool) -> Result<Operands, Report>
        ensures taken { IfOk result (λ operands. self.old.values.items ≡ self.new.values.items ++ operand_list operands) }
        ensures left { IfOk result (λ operands. is_some operands.left ≡ has_left) }
        ensures axis { IfOk result (λ operands. is_some operands.axis ≡ has_axis) }
        ensures same { self.new ≡ record self.old { values = self.new.values } }
        ensures none { IfErr result (λ why. (why ≡ report.Value) × (length self.old.values.items < operand_count has_left has_axis)) }
    {
        let left = self.take_where(has_left)?;
        let axis = self.take_where(has_axis)?;
        let right = self.take()?;
        Ok(Operands { left, axis, right })
    }

    /// Takes the subscripts at the front, the first one first. It takes memory for them.
    pub fn take_subs(
        &mut self,
        alloc: Global,
        places: &[Option<u64>],
        workspace: &Workspace,
    ) -> Result<Subs, WantOfMemory>
        requires { IsEvaluation workspace.now self.old }
        ensures subs { IfOk result (λ subs. subs.items ≡ (popped places.now (stack_values workspace.now self.old)).subs) }
        ensures rest { OnOk result (stack_values workspace.now self.new ≡ (popped places.now (stack_values workspace.now self.old)).values) }
        ensures same { self.new ≡ record self.old { values = self.new.values } }
        ensures sound { OnOk result (IsEvaluation workspace.now self.new) }
    {
        let mut subs = Subs::new(alloc);
        for place in places {
            let sub = self.take_sub(place.is_some());
            subs.push(self.owned_sub(alloc, sub, workspace)?)?;
        }
        Ok(subs)
    }

    // Takes the newest value as a subscript, unless the subscript is omitted.
    fn take_sub(&mut self, is_given: bool) -> Option<StackValue>
        ensures taken { self.old.values.items ≡ self.new.values.items ++ option_to_list result }
        ensures omitted { is_given ≡ false → result ≡ None }
        ensures given { is_given ≡ true → result ≡ None → self.old.values.items ≡ [] }
        ensures same { self.new ≡ record self.old { values = self.new.values } }
    {
        if is_given { self.values.pop() } else { None }
    }

    // A subscript as an array of its own.
    fn owned_sub(
        &self,
        alloc: Global,
        sub: Option<StackValue>,
        workspace: &Workspace,
    ) -> Result<Option<Array>, WantOfMemory>
        requires { IfSome sub (IsStackValue workspace.now (parts_of self.now)) }
        ensures { IfOk result (λ array. array ≡ option_map (stack_value workspace.now (parts_of self.now)) sub) }
    {
        match sub {
            None => Ok(None),
            Some(held) => Ok(Some(owned(alloc, held, self.parts(), workspace)?)),
        }
    }

    /// Makes an array of each value that a name has, before the workspace changes. It takes memory for their items.
    pub fn settle(&mut self, alloc: Global, workspace: &Workspace) -> Result<(), WantOfMemory>
        requires { IsEvaluation workspace.now self.old }
        ensures { OnOk result (IsWithValues self.old (map (settled workspace.now) self.old.values.items) self.new) }
    {
        settle(alloc, &mut self.values, workspace)
    }

    /// Goes on with what a function gave. It takes memory for a value.
    pub fn resume(&mut self, found: Option<Array>) -> Result<(), WantOfMemory>
        ensures { OnOk result (IsResumedWith found self.old self.new) }
    {
        match found {
            None => {
                self.is_wanting = true;
                Ok(())
            }
            Some(array) => self.push(StackValue::Made(array)),
        }
    }
}
