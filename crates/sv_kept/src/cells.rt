ghost use Rattle.std.specs.Prelude.{◌≡◌, ◌≢◌, ◌<◌, ℕ, None, Some, IsSome, IsTrue, is_some, IfOk, OnOk, OnErr, option_and_then, option_map};
ghost use Rattle.std.specs.Option.{option_copied};
ghost use Rattle.sv_kept.specs.Cell.{after_set_in, after_use_in, answered, controlled, holding, known_alone, new_cell, share_in};
ghost use Rattle.sv_kept.specs.Cells.{CouplesAt, ChangesAt, KeepsCells, PartsAt, PutsAt, cell_at, is_alone_at, room_of};
ghost use Rattle.sv_kept.specs.Share.{shared_value};

use crate::Share;
use crate::cell::{Cell, CellContent, Parted, coupled_with, part_cells};
use apl_arrays::{Array, WantOfMemory};
use std::alloc::Global;
use std::collections::HashMap;
use sv_access::{Control, Side};

/// What is kept of standing offers, by their places.
#[derive(Drop)]
pub struct Cells {
    alloc: Global,
    cells: HashMap<u64, Cell>,
}

impl Cells {
    /// No cells.
    pub fn new(alloc: Global) -> Cells
        ensures { (at : ℕ) → cell_at result at ≡ None }
    {
        Cells {
            alloc,
            cells: HashMap::new(alloc),
        }
    }

    /// The cell at a place, if there is one.
    pub fn get(&self, place: u64) -> Option<&Cell>
        ensures { option_copied result ≡ cell_at self.now place }
    {
        self.cells.get(&place)
    }

    /// Whether the party of the open offer at a place knows a value.
    pub fn knows(&self, place: u64) -> bool
        ensures { result ≡ is_some (option_and_then (λ cell. known_alone cell.held) (cell_at self.now place)) }
    {
        match self.get(place) {
            None => false,
            Some(cell) => cell.held.known().is_some(),
        }
    }

    /// Whether the cell at a place has a share.
    pub fn shares(&self, place: u64) -> bool
        ensures { result ≡ is_some (option_and_then (λ cell. share_in cell.held) (cell_at self.now place)) }
    {
        match self.get(place) {
            None => false,
            Some(cell) => cell.held.share().is_some(),
        }
    }

    /// Makes room for one cell more. It takes memory; the cells are as before.
    pub fn reserve(&mut self) -> Result<(), WantOfMemory>
        ensures cells { KeepsCells self.old self.new }
        ensures room { OnOk result (0 < room_of self.new) }
    {
        self.cells.reserve(1)?;
        Ok(())
    }

    /// The cell of a new offer that was handed a value, where there is room.
    pub fn open(&mut self, place: u64, value: Option<Array>)
        requires { 0 < room_of self.old }
        ensures { PutsAt self.old self.new place (Some (new_cell value)) }
    {
        match self.cells.insert(place, Cell::new(value)) {
            Ok(old) => drop(old),
            Err(_) => unreachable!(),
        }
    }

    /// The cell at a place goes.
    pub fn close(&mut self, place: u64)
        ensures { PutsAt self.old self.new place None }
    {
        self.cells.remove(&place);
    }

    // Puts a cell in place of one, which is answered.
    fn replace(&mut self, place: u64, cell: Cell) -> Cell
        requires { IsSome (cell_at self.old place) }
        ensures value { cell_at self.old place ≡ Some result }
        ensures cells { PutsAt self.old self.new place (Some cell) }
    {
        match self.cells.insert(place, cell) {
            Ok(Some(old)) => old,
            Ok(None) | Err(_) => unreachable!(),
        }
    }

    // Takes the cell at a place out, and leaves an empty one.
    fn take(&mut self, place: u64) -> Cell
        requires { IsSome (cell_at self.old place) }
        ensures value { cell_at self.old place ≡ Some result }
        ensures cells { PutsAt self.old self.new place (Some (new_cell None)) }
    {
        self.replace(place, Cell::new(None))
    }

    // Puts a cell in place of one that is not wanted.
    fn put(&mut self, place: u64, cell: Cell)
        requires { IsSome (cell_at self.old place) }
        ensures { PutsAt self.old self.new place (Some cell) }
    {
        drop(self.replace(place, cell));
    }

    /// The party of the offer at a place sets a control.
    pub fn control(&mut self, place: u64, control: Control)
        requires { IsSome (cell_at self.old place) }
        ensures { ChangesAt self.old self.new place (λ cell. controlled cell control) }
    {
        match self.cells.get_mut(&place) {
            Some(cell) => cell.control(control),
            None => unreachable!(),
        }
    }

    /// The party of the offer at a place set or used, and got a value or did not.
    pub fn answered(&mut self, place: u64, got: bool)
        requires { IsSome (cell_at self.old place) }
        ensures { ChangesAt self.old self.new place (λ cell. answered cell got) }
    {
        match self.cells.get_mut(&place) {
            Some(cell) => cell.answer(got),
            None => unreachable!(),
        }
    }

    /// The party of the open offer at a place knows a value, which moves in.
    pub fn learn(&mut self, place: u64, value: Array)
        requires { IsTrue (is_alone_at self.old place) }
        ensures { ChangesAt self.old self.new place (λ cell. holding cell (CellContent.Alone (Some value))) }
    {
        match self.cells.get_mut(&place) {
            Some(cell) => cell.hold(CellContent::Alone(Some(value))),
            None => unreachable!(),
        }
    }

    /// A side of the coupling whose lower offer is at a place sets a value, which moves in.
    pub fn set(&mut self, place: u64, side: Side, value: Array)
        requires { IsSome (option_and_then (λ cell. share_in cell.held) (cell_at self.old place)) }
        ensures { ChangesAt self.old self.new place (λ cell. holding cell (after_set_in cell.held side value)) }
    {
        match self.cells.get_mut(&place) {
            Some(cell) => cell.set(side, value),
            None => unreachable!(),
        }
    }

    /// A side of the coupling whose lower offer is at a place uses the value, if there is one, and comes to know it. It takes
    /// memory for the value; after `WantOfMemory` all is as before.
    pub fn use_value(&mut self, place: u64, side: Side) -> Result<bool, WantOfMemory>
        requires { IsSome (option_and_then (λ cell. share_in cell.held) (cell_at self.old place)) }
        ensures got { IfOk result (λ got. got ≡ is_some (option_and_then shared_value (option_and_then (λ cell. share_in cell.held) (cell_at self.old place)))) }
        ensures ok { OnOk result (ChangesAt self.old self.new place (λ cell. holding cell (after_use_in cell.held side))) }
        ensures err { OnErr result (KeepsCells self.old self.new) }
    {
        match self.cells.get_mut(&place) {
            Some(cell) => cell.use_value(side),
            None => unreachable!(),
        }
    }

    /// Two open offers are coupled: what their parties know is shared, and the lower offer's cell has the share.
    pub fn couple(&mut self, a: u64, b: u64)
        requires apart { a ≢ b }
        requires a { IsSome (cell_at self.old a) }
        requires b { IsSome (cell_at self.old b) }
        ensures { CouplesAt self.old self.new a b }
    {
        let of_a = self.take(a);
        let of_b = self.take(b);
        let vector_a = of_a.vector;
        let vector_b = of_b.vector;
        let share = Share::new(self.alloc, of_a.held.into_known(), of_b.held.into_known());
        self.put(a, coupled_with(vector_a, CellContent::Shared(share)));
        self.put(b, coupled_with(vector_b, CellContent::Lent));
    }

    /// The coupling of two offers ends: each cell holds again what its party knows.
    pub fn part(&mut self, a: u64, b: u64)
        requires apart { a ≢ b }
        requires a { IsSome (option_and_then (λ cell. share_in cell.held) (cell_at self.old a)) }
        requires b { IsSome (cell_at self.old b) }
        ensures { PartsAt self.old self.new a b }
    {
        let of_a = self.take(a);
        let of_b = self.take(b);
        let Parted {
            a: cell_a,
            b: cell_b,
        } = part_cells(of_a, of_b);
        self.put(a, cell_a);
        self.put(b, cell_b);
    }
}
