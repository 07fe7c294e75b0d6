ghost use Rattle.std.specs.Prelude.{◌≡◌, Some, None, IsSome, is_some, IfOk, OnOk, OnErr, option_and_then};
ghost use Rattle.std.specs.Option.{option_copied};
ghost use Rattle.sv_kept.specs.Cell.{after_set_in, after_use_in, answered, controlled, coupled_with, holding, known_alone, new_cell, share_in};
ghost use Rattle.sv_kept.specs.Share.{PlainShare, after_set, shared_value};

use crate::Share;
use apl_arrays::{Array, WantOfMemory};
use sv_access::{Control, NO_CONTROL, Side};

/// What the cell of an offer holds.
#[derive(Debug, Drop)]
pub enum CellContent {
    /// The value that its party knows, while the offer is open.
    Alone(Option<Array>),
    /// What it shares, where it is the lower offer of a coupling.
    Shared(Share),
    /// Nothing, where it is the higher one: the lower one's cell has the share.
    Lent,
}

/// What is kept of a standing offer: its vector, in its party's view; whether its party set no control since it was
/// coupled, and whether it got a value by its last access since, which is asked of auxiliaries; and what it holds.
#[derive(Debug, Drop)]
pub struct Cell {
    pub vector: Control,
    pub lacks_control: bool,
    pub owes_reply: bool,
    pub held: CellContent,
}

impl CellContent {
    /// The value that is known alone: none where the offer is coupled.
    pub fn known(&self) -> Option<&Array>
        ensures { option_copied result ≡ known_alone self.now }
    {
        match self {
            CellContent::Alone(value) => value.as_ref(),
            CellContent::Shared(_) | CellContent::Lent => None,
        }
    }

    /// The share that is held, if one is.
    pub fn share(&self) -> Option<&Share>
        ensures { option_copied result ≡ share_in self.now }
    {
        match self {
            CellContent::Shared(share) => Some(share),
            CellContent::Alone(_) | CellContent::Lent => None,
        }
    }

    /// The value that was known alone.
    pub fn into_known(self) -> Option<Array>
        ensures { result ≡ known_alone self }
    {
        match self {
            CellContent::Alone(value) => value,
            CellContent::Shared(share) => no_value(share),
            CellContent::Lent => None,
        }
    }
}

// None of a share's values.
fn no_value(_share: Share) -> Option<Array>
    ensures { result ≡ None }
{
    None
}

impl Cell {
    /// The cell of a new offer that was handed this value.
    pub fn new(value: Option<Array>) -> Cell
        ensures { result ≡ new_cell value }
    {
        Cell {
            vector: NO_CONTROL,
            lacks_control: true,
            owes_reply: false,
            held: CellContent::Alone(value),
        }
    }

    /// Its party sets a control.
    pub fn control(&mut self, control: Control)
        ensures { self.new ≡ controlled self.old control }
    {
        self.vector = control;
        self.lacks_control = false;
    }

    /// It holds something else.
    pub fn hold(&mut self, held: CellContent)
        ensures { self.new ≡ holding self.old held }
    {
        self.held = held;
    }

    /// A side sets a value, which moves into the share.
    pub fn set(&mut self, side: Side, value: Array)
        requires { IsSome (share_in self.old.held) }
        ensures { self.new ≡ holding self.old (after_set_in self.old.held side value) }
    {
        match &mut self.held {
            CellContent::Shared(share) => set_shared(share, side, value),
            CellContent::Alone(_) | CellContent::Lent => unreachable!(),
        }
    }

    /// A side uses the value of the share, if there is one, and comes to know it. It takes memory for the value; after
    /// `WantOfMemory` all is as before.
    pub fn use_value(&mut self, side: Side) -> Result<bool, WantOfMemory>
        requires { IsSome (share_in self.old.held) }
        ensures got { IfOk result (λ got. got ≡ is_some (option_and_then shared_value (share_in self.old.held))) }
        ensures ok { OnOk result (self.new ≡ holding self.old (after_use_in self.old.held side)) }
        ensures err { OnErr result (self.new ≡ self.old) }
    {
        match &mut self.held {
            CellContent::Shared(share) => share.learn_last(side),
            CellContent::Alone(_) | CellContent::Lent => unreachable!(),
        }
    }

    /// Its party set or used, and got a value or did not.
    pub fn answer(&mut self, got: bool)
        ensures { self.new ≡ answered self.old got }
    {
        self.owes_reply = got;
    }
}

/// The cell of an offer that was coupled, with the vector of before.
pub fn coupled_with(vector: Control, held: CellContent) -> Cell
    ensures { result ≡ coupled_with vector held }
{
    Cell {
        vector,
        lacks_control: true,
        owes_reply: false,
        held,
    }
}

// A side of a share sets a value.
fn set_shared(share: &mut Share, side: Side, value: Array)
    ensures { share.new ≡ after_set share.old side value }
{
    match share.set(side, value) {
        Ok(()) => (),
        Err(_) => unreachable!(),
    }
}

/// The cells of two offers whose coupling ends: each holds again what its party knows.
#[derive(Debug, Drop)]
pub struct Parted {
    pub a: Cell,
    pub b: Cell,
}

/// The cells of two offers whose coupling ends, by that with the share and the other.
pub fn part_cells(a: Cell, mut b: Cell) -> Parted
    requires { IsSome (share_in a.held) }
    ensures a { (share : PlainShare) → share_in a.held ≡ Some share → result.a ≡ holding a (CellContent.Alone share.a) }
    ensures b { (share : PlainShare) → share_in a.held ≡ Some share → result.b ≡ holding b (CellContent.Alone share.b) }
{
    let Cell {
        vector,
        lacks_control,
        owes_reply,
        held,
    } = a;
    let CellContent::Shared(share) = held else {
        unreachable!()
    };
    let known = share.into_known();
    b.hold(CellContent::Alone(known.b));
    Parted {
        a: Cell {
            vector,
            lacks_control,
            owes_reply,
            held: CellContent::Alone(known.a),
        },
        b,
    }
}
