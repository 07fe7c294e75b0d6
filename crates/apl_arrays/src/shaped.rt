ghost use Rattle.std.specs.Prelude.{◌≡◌, IfOk, OnOk, OnErr};
ghost use Rattle.apl_arrays.specs.Array.{plain_items, seen_items, item_count, element_count, FitsLimits, IsArray};

use crate::{Items, ItemsRef, RANK_LIMIT, WantOfMemory};
use std::alloc::Global;
use std::marker::Model;

/// The axes and the items of an array that stands apart.
#[derive(Debug, Drop)]
pub(crate) struct Shaped {
    axes: [u32; RANK_LIMIT],
    rank: u8,
    items: Items,
}

impl Model for Shaped {
    ghost use Rattle.std.specs.Prelude.{◌≡◌, ◌≤◌, length, take};
    ghost use Rattle.apl_arrays.specs.Array.{PlainArray, plain_items, IsArray};

    ghost Value = { PlainArray };

    ghost view = { λ a. record { shape = take a.rank a.axes; items = plain_items a.items } };

    ghost invariant = { λ a. (length a.axes ≡ 8) × (a.rank ≤ 8) × IsArray (record { shape = take a.rank a.axes; items = plain_items a.items }) };
}

impl Shaped {
    /// A shape within the limits, and as many items.
    pub(crate) fn of(shape: &[u32], items: Items) -> Shaped
        requires fits { FitsLimits shape.now }
        requires whole { element_count shape.now ≡ item_count (plain_items items) }
        ensures { result ≡ record { shape = shape.now; items = plain_items items } }
    {
        let mut axes = [0; RANK_LIMIT];
        axes[..shape.len()].copy_from_slice(shape);
        Shaped {
            axes,
            rank: shape.len() as u8,
            items,
        }
    }

    /// The same axes and items. It takes memory for the items.
    pub(crate) fn copy(&self, alloc: Global) -> Result<Shaped, WantOfMemory>
        ensures { IfOk result (λ shaped. shaped ≡ self.now) }
    {
        Ok(Shaped {
            axes: self.axes,
            rank: self.rank,
            items: self.items.copy(alloc)?,
        })
    }

    /// Becomes equal to another. Where its items are of the kind of the other's and as many it takes no memory, else it may
    /// take memory for them. `WantOfMemory` leaves it as it was.
    pub(crate) fn renew(&mut self, alloc: Global, other: &Shaped) -> Result<(), WantOfMemory>
        ensures ok { OnOk result (self.new ≡ other.now) }
        ensures err { OnErr result (self.new ≡ self.old) }
    {
        self.items.renew(alloc, &other.items)?;
        self.axes = other.axes;
        self.rank = other.rank;
        Ok(())
    }

    /// The lengths of the axes.
    pub(crate) fn shape(&self) -> &[u32]
        ensures value { result.now ≡ self.now.shape }
        ensures array { IsArray self.now }
    {
        &self.axes[..self.rank as usize]
    }

    /// The items.
    pub(crate) fn items(&self) -> ItemsRef<'_>
        ensures value { seen_items result ≡ self.now.items }
        ensures array { IsArray self.now }
    {
        self.items.view()
    }
}
