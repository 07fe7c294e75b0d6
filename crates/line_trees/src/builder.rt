//! The nodes of a line, from right to left.

ghost use Rattle.std.specs.Prelude.{◌≡◌, ◌∷◌, ◌++◌, [], List, Option, Some, None, OnOk, IfOk, length};
ghost use Rattle.line_scanner.specs.Token.{plain_kind};
ghost use Rattle.apl_arrays.specs.Array.{plain_items};
ghost use Rattle.line_trees.specs.Nodes.{plain_node};
ghost use Rattle.line_trees.specs.Symbols.{symbol_of};
ghost use Rattle.line_trees.specs.Building.{Built, attached, finished, is_indexing, built_by, items_of, operand_built, name_built, parenthesis_built, parenthesis_behind, subscript_built, subscripts_built, subscripts, behind_subscripts, indexing, target_or_operand, axis_built, axis_before, monadic_built, lead_built, slash_built, dyadic_built, scalar_built, jot_built, factor_built, gets_built, branch_built, execute_built, name_by, niladic_by, lead_by, slash_by, monadic_by, dyadic_by, scalar_by, factor_by, with_waiting, with_whole, whole_expression, nothing_built, first_list, other_lists};
ghost use Rattle.apl_arrays.specs.List.{first_of, others_of};
ghost use Rattle.line_trees.specs.Builders.{plain_builder};
ghost use Rattle.line_trees.specs.Parsing.{plain_tree, tree_of, form_of};

use crate::place_stack::PlaceStack;
use crate::signs::{between, folded};
use crate::stack::Stack;
use crate::symbol::{Fold, Symbol, name_symbol, symbol_of};
use crate::tree::{Mark, Pending};
use crate::{Classes, Form, Fun, Node, NodeList, Places, Tree, pending};
use apl_arrays::{Items, List, Name, WantOfMemory};
use apl_verbs::{Dyad, Monad, Verb};
use line_scanner::TokenKind;
use std::alloc::Global;

/// What is built of a line: its label, its nodes so far, what waits for more to the left, and the lists of subscripts
/// that wait for the operand before them.
#[derive(Debug, Drop)]
pub struct Builder {
    label: Option<Name>,
    nodes: NodeList,
    waiting: Stack<Pending>,
    lists: PlaceStack,
}

impl Builder {
    /// Nothing has been read.
    pub fn new(alloc: Global) -> Self
        ensures { plain_builder result ≡ nothing_built }
    {
        Builder {
            label: None,
            nodes: NodeList::new(alloc),
            waiting: Stack::new(alloc),
            lists: PlaceStack::new(alloc),
        }
    }

    /// Adds a node and tells its number.
    fn add(&mut self, node: Node) -> Result<u64, WantOfMemory>
        ensures number { IfOk result (λ number. number ≡ length self.old.nodes.items) }
        ensures nodes { OnOk result (self.new.nodes.items ≡ self.old.nodes.items ++ plain_node node ∷ []) }
        ensures label { OnOk result (self.new.label ≡ self.old.label) }
        ensures waiting { OnOk result (self.new.waiting ≡ self.old.waiting) }
        ensures lists { OnOk result (self.new.lists ≡ self.old.lists) }
    {
        let number = self.nodes.len() as u64;
        self.nodes.push(node)?;
        Ok(number)
    }

    /// Adds a node that is a whole expression.
    fn add_whole(&mut self, node: Node) -> Result<(), WantOfMemory>
        ensures { OnOk result (plain_builder self.new ≡ with_whole (plain_builder self.old) (plain_node node) self.old.waiting) }
    {
        let number = self.add(node)?;
        self.waiting.push(Pending::Expr(None, number))
    }

    /// Whether a list of subscripts waits.
    fn is_indexing(&self) -> bool
        ensures { result ≡ is_indexing (first_of self.now.waiting) }
    {
        matches!(self.waiting.top(), Some(Pending::Indexing))
    }

    /// An operand for which no subscripts wait: a dyadic function that waits takes it.
    fn finish(&mut self, value: u64) -> Result<(), WantOfMemory>
        ensures { OnOk result (plain_builder self.new ≡ finished self.old.label value self.old.nodes.items self.old.waiting self.old.lists (first_of self.old.waiting) (others_of self.old.waiting)) }
    {
        match self.waiting.top() {
            Some(Pending::Dyadic(function, axis, right)) => {
                self.waiting.pop();
                self.add_whole(Node::Apply {
                    function,
                    left: Some(value),
                    right,
                    axis,
                })
            }
            _ => self.waiting.push(Pending::Expr(None, value)),
        }
    }

    /// An operand: lists of subscripts that wait index it first.
    #[tactic(auto, using(crate::proofs::Loops::attaching))]
    fn attach(&mut self, alloc: Global, operand: u64) -> Result<(), WantOfMemory>
        ensures { OnOk result (plain_builder self.new ≡ attached self.old.label operand self.old.nodes.items self.old.waiting self.old.lists) }
    {
        let mut value = operand;
        while self.is_indexing() {
            self.waiting.pop();
            let subs = self.lists.pop(alloc);
            value = self.add(Node::Indexed { value, subs })?;
        }
        self.finish(value)
    }

    /// An operand of one more node.
    fn operand(&mut self, alloc: Global, node: Node) -> Result<(), WantOfMemory>
        ensures { OnOk result (plain_builder self.new ≡ operand_built (plain_builder self.old) (plain_node node) self.old.waiting) }
    {
        let value = self.add(node)?;
        self.attach(alloc, value)
    }

    /// A name of a value: a label, a target, or an operand.
    fn name(&mut self, alloc: Global, name: Name) -> Result<(), WantOfMemory>
        ensures { OnOk result (plain_builder self.new ≡ name_built name (plain_builder self.old) (first_of self.old.waiting) (others_of self.old.waiting)) }
    {
        match self.waiting.top() {
            Some(Pending::Label) => {
                self.waiting.pop();
                self.label = Some(name);
                Ok(())
            }
            Some(Pending::Gets(right)) => {
                self.waiting.pop();
                self.add_whole(Node::Assign {
                    target: name,
                    subs: None,
                    right,
                })
            }
            Some(Pending::GetsAt(right)) => {
                self.waiting.pop();
                let subs = self.lists.pop(alloc);
                self.add_whole(Node::Assign {
                    target: name,
                    subs: Some(subs),
                    right,
                })
            }
            _ => self.operand(alloc, Node::Value(name)),
        }
    }

    /// `(` before an expression.
    fn parenthesis(&mut self, alloc: Global) -> Result<(), WantOfMemory>
        ensures { OnOk result (plain_builder self.new ≡ parenthesis_built (plain_builder self.old) (first_of self.old.waiting) (others_of self.old.waiting)) }
    {
        let Some(Pending::Expr(_, inner)) = self.waiting.pop() else {
            return Ok(());
        };
        let Some(Pending::Parenthesis) = self.waiting.pop() else {
            return Ok(());
        };
        self.operand(alloc, Node::Paren(inner))
    }

    /// `[` before subscripts.
    fn subscripts(&mut self, alloc: Global) -> Result<(), WantOfMemory>
        ensures { OnOk result (plain_builder self.new ≡ subscripts_built (plain_builder self.old) (subscript_built self.old.waiting (first_of self.old.waiting) (others_of self.old.waiting))) }
    {
        pending::subscript(&mut self.waiting)?;
        let list = pending::taken_subscripts(alloc, &mut self.waiting)?;
        self.lists.push(list)?;
        self.waiting.pop();
        match self.waiting.top() {
            Some(Pending::Gets(right)) => {
                self.waiting.pop();
                self.waiting.push(Pending::GetsAt(right))
            }
            _ => self.waiting.push(Pending::Indexing),
        }
    }

    /// A monadic function.
    fn monadic(&mut self, function: Fun) -> Result<(), WantOfMemory>
        ensures { OnOk result (plain_builder self.new ≡ monadic_built function (plain_builder self.old) (first_of self.old.waiting) (others_of self.old.waiting)) }
    {
        let Some(Pending::Expr(axis, right)) = self.waiting.pop() else {
            return Ok(());
        };
        self.add_whole(Node::Apply {
            function,
            left: None,
            right,
            axis,
        })
    }

    /// A sign of scalar functions with which an expression begins.
    fn lead(&mut self, monad: Option<Monad>, dyad: Option<Dyad>) -> Result<(), WantOfMemory>
        ensures { OnOk result (plain_builder self.new ≡ lead_built monad dyad (plain_builder self.old) (first_of self.old.waiting) (others_of self.old.waiting)) }
    {
        match self.waiting.pop() {
            Some(Pending::Expr(axis, right)) => match monad {
                Some(monad) => self.add_whole(Node::Apply {
                    function: Fun::Verb(Verb::One(monad)),
                    left: None,
                    right,
                    axis,
                }),
                None => Ok(()),
            },
            Some(Pending::Slash(fold, axis, right)) => match dyad {
                Some(dyad) => self.add_whole(Node::Apply {
                    function: Fun::Verb(folded(dyad, fold)),
                    left: None,
                    right,
                    axis,
                }),
                None => Ok(()),
            },
            _ => Ok(()),
        }
    }

    fn name_by(&mut self, alloc: Global, symbol: Symbol) -> Result<(), WantOfMemory>
        ensures { OnOk result (plain_builder self.new ≡ name_by symbol (plain_builder self.old)) }
    {
        match symbol {
            Symbol::Value(name) => self.name(alloc, name),
            _ => Ok(()),
        }
    }

    /// A name of a value.
    fn name_of(
        &mut self,
        alloc: Global,
        classes: &Classes,
        kind: &TokenKind,
    ) -> Result<(), WantOfMemory>
        ensures { OnOk result (plain_builder self.new ≡ name_by (symbol_of classes.now.items (plain_kind kind.now)) (plain_builder self.old)) }
    {
        match kind {
            TokenKind::Name(name) => {
                self.name_by(alloc, name_symbol(classes.arguments_of(name), *name))
            }
            _ => self.name_by(alloc, symbol_of(classes, kind)),
        }
    }

    fn niladic_by(
        &mut self,
        alloc: Global,
        classes: &Classes,
        kind: &TokenKind,
    ) -> Result<(), WantOfMemory>
        ensures { OnOk result (plain_builder self.new ≡ niladic_by (symbol_of classes.now.items (plain_kind kind.now)) (plain_builder self.old)) }
    {
        match symbol_of(classes, kind) {
            Symbol::Niladic(name) => self.operand(alloc, Node::Niladic(name)),
            _ => Ok(()),
        }
    }

    fn lead_by(&mut self, classes: &Classes, kind: &TokenKind) -> Result<(), WantOfMemory>
        ensures { OnOk result (plain_builder self.new ≡ lead_by (symbol_of classes.now.items (plain_kind kind.now)) (plain_builder self.old)) }
    {
        match symbol_of(classes, kind) {
            Symbol::Scalar(monad, dyad) => self.lead(monad, dyad),
            _ => Ok(()),
        }
    }

    fn slash_by(&mut self, classes: &Classes, kind: &TokenKind) -> Result<(), WantOfMemory>
        ensures { OnOk result (plain_builder self.new ≡ slash_by (symbol_of classes.now.items (plain_kind kind.now)) (plain_builder self.old)) }
    {
        match symbol_of(classes, kind) {
            Symbol::Slash(fold) => pending::slash(&mut self.waiting, fold),
            _ => Ok(()),
        }
    }

    fn monadic_by(&mut self, classes: &Classes, kind: &TokenKind) -> Result<(), WantOfMemory>
        ensures { OnOk result (plain_builder self.new ≡ monadic_by (symbol_of classes.now.items (plain_kind kind.now)) (plain_builder self.old)) }
    {
        match symbol_of(classes, kind) {
            Symbol::Function(Some(function), _) => self.monadic(function),
            _ => Ok(()),
        }
    }

    fn dyadic_by(&mut self, classes: &Classes, kind: &TokenKind) -> Result<(), WantOfMemory>
        ensures { OnOk result (plain_builder self.new ≡ dyadic_by (symbol_of classes.now.items (plain_kind kind.now)) (plain_builder self.old)) }
    {
        match symbol_of(classes, kind) {
            Symbol::Function(_, Some(function)) => pending::dyadic(&mut self.waiting, function),
            Symbol::Slash(fold) => pending::dyadic(&mut self.waiting, Fun::Verb(between(fold))),
            _ => Ok(()),
        }
    }

    fn scalar_by(&mut self, classes: &Classes, kind: &TokenKind) -> Result<(), WantOfMemory>
        ensures { OnOk result (plain_builder self.new ≡ scalar_by (symbol_of classes.now.items (plain_kind kind.now)) (plain_builder self.old)) }
    {
        match symbol_of(classes, kind) {
            Symbol::Scalar(_, Some(dyad)) => pending::scalar(&mut self.waiting, dyad),
            _ => Ok(()),
        }
    }

    fn factor_by(&mut self, classes: &Classes, kind: &TokenKind) -> Result<(), WantOfMemory>
        ensures { OnOk result (plain_builder self.new ≡ factor_by (symbol_of classes.now.items (plain_kind kind.now)) (plain_builder self.old)) }
    {
        match symbol_of(classes, kind) {
            Symbol::Scalar(_, Some(dyad)) => pending::factor(&mut self.waiting, dyad),
            _ => Ok(()),
        }
    }

    /// Adds what a mark makes of its token.
    #[tactic(auto, unfolding(crate::specs::Building::built_by))]
    pub fn read(
        &mut self,
        alloc: Global,
        mark: Mark,
        classes: &Classes,
        kind: &TokenKind,
    ) -> Result<(), WantOfMemory>
        ensures { OnOk result (plain_builder self.new ≡ built_by mark (symbol_of classes.now.items (plain_kind kind.now)) (plain_kind kind.now) (plain_builder self.old)) }
    {
        match mark {
            Mark::Constant => {
                let items = items_of(alloc, kind)?;
                self.operand(alloc, Node::Constant(items))
            }
            Mark::Name => self.name_of(alloc, classes, kind),
            Mark::Niladic => self.niladic_by(alloc, classes, kind),
            Mark::LeftParenthesis => self.parenthesis(alloc),
            Mark::RightParenthesis => self.waiting.push(Pending::Parenthesis),
            Mark::OpenSubscripts => self.subscripts(alloc),
            Mark::Semicolon => pending::subscript(&mut self.waiting),
            Mark::CloseSubscripts => self.waiting.push(Pending::Subscripts),
            Mark::OpenAxis => pending::axis(&mut self.waiting),
            Mark::CloseAxis => self.waiting.push(Pending::Axis),
            Mark::Lead => self.lead_by(classes, kind),
            Mark::Slash => self.slash_by(classes, kind),
            Mark::Monadic => self.monadic_by(classes, kind),
            Mark::Dyadic => self.dyadic_by(classes, kind),
            Mark::Scalar => self.scalar_by(classes, kind),
            Mark::Dot => Ok(()),
            Mark::Jot => pending::jot(&mut self.waiting),
            Mark::Factor => self.factor_by(classes, kind),
            Mark::Gets => pending::gets(&mut self.waiting),
            Mark::Colon => self.waiting.push(Pending::Label),
            Mark::Branch => pending::branch(&mut self.waiting),
            Mark::Execute => pending::execute(&mut self.waiting),
        }
    }

    /// The tree, where all is read.
    pub fn into_tree(self) -> Tree
        ensures { plain_tree result ≡ tree_of (plain_builder self) }
    {
        let form = form_of(self.waiting.top());
        let Builder {
            label,
            nodes,
            waiting: _,
            lists: _,
        } = self;
        Tree { label, form, nodes }
    }
}

/// The items of a constant.
fn items_of(alloc: Global, kind: &TokenKind) -> Result<Items, WantOfMemory>
    ensures { IfOk result (λ items. plain_items items ≡ items_of (plain_kind kind.now)) }
{
    match kind {
        TokenKind::Numbers(list) => Ok(Items::Numbers(list.copy(alloc)?)),
        TokenKind::Chars(list) => Ok(Items::Chars(list.copy(alloc)?)),
        TokenKind::Name(_) | TokenKind::System(_) | TokenKind::Sign(_) => {
            Ok(Items::Chars(List::new(alloc)))
        }
    }
}

/// The form of a statement.
fn form_of(first: Option<Pending>) -> Form
    ensures { result ≡ form_of first }
{
    match first {
        Some(Pending::Expr(_, number)) => Form::Value(number),
        Some(Pending::Branch(number)) => Form::Branch(number),
        Some(Pending::Execute(number)) => Form::Execute(number),
        _ => Form::Nothing,
    }
}
