ghost use Rattle.std.specs.Prelude.{◌≡◌};
ghost use Rattle.sv_access.specs.Control.{swapped, combined};

/// Which accesses a side wants controlled. As that side sees them, the four elements stand for a
/// set by me, a set by the partner, a use by me and a use by the partner.
#[derive(Clone, Copy, Debug, PartialEq, Eq)]
pub struct Control(pub [bool; 4]);

/// Nothing is controlled.
pub const NO_CONTROL: Control = Control([false, false, false, false]);

/// The same control as the partner sees it, in the order 2 1 4 3.
pub fn swap(c: Control) -> Control
    ensures { result ≡ swapped c }
{
    let [set_by_me, set_by_partner, use_by_me, use_by_partner] = c.0;
    Control([set_by_partner, set_by_me, use_by_partner, use_by_me])
}

/// The control in force for a coupling, in A's view: each element is 1 where one of the two
/// vectors has it. `a` is in A's view and `b` in B's.
pub fn join(a: Control, b: Control) -> Control
    ensures { result ≡ combined a b }
{
    let b = swap(b);
    Control([
        a.0[0] || b.0[0],
        a.0[1] || b.0[1],
        a.0[2] || b.0[2],
        a.0[3] || b.0[3],
    ])
}
