// One channel's row: its 64 cells are lent as a part of the table, and the flow that is asked about is
// some slots later here than at its path's first channel. Nothing here knows paths or other rows.
#![tactic(auto)]

ghost use Rattle.std.specs.Prelude.{◌≡◌, true, ◌<◌, length};
ghost use Rattle.rules.specs.Tells.{Tells};
ghost use Rattle.rules.specs.Sets.{set_of};
ghost use Rattle.rules.specs.Wheels.{Legal};
ghost use Rattle.rows.specs.Rows.{later, stays, RowStamped, RowHolds};

use rules::{ChannelSlot, PathSlot, Wheel};

// How a row is seen: the wheel, and how many slots later the flow is there, turned round the wheel.
#[derive(Clone, Copy)]
pub struct Turn {
    pub wheel: Wheel,
    pub shift: usize,
    ghost legal: { Legal wheel },
    ghost inside: { shift < wheel.n },
}

impl Turn {
    // Slot s of a path, as the channel counts it. Slot and shift are below N, so that one
    // comparison turns the slot round the wheel.
    fn seen(self, s: PathSlot) -> ChannelSlot
        requires { s.0 < self.wheel.n }
        ensures { (result.0 ≡ later self.wheel.n self.shift s.0) × (result.0 < self.wheel.n) }
    {
        let n = self.wheel.n;
        let j = s.0 + self.shift;
        if j < n {
            ChannelSlot(j)
        } else {
            ChannelSlot(j - n)
        }
    }
}

// The set of all slots of the wheel.
#[tactic(auto, using(crate::specs::Slots::all_slots))]
pub fn all_slots(w: Wheel) -> u64
    requires { Legal w }
    ensures { result ≡ set_of (λ _. true) 0 w.n }
{
    u64::MAX >> (64 - w.n)
}

// Whether slot s is in x and its cell in the row is free.
#[tactic(auto, unfolding(crate::specs::Rows::stays))]
fn stays(row: &[u8; 64], turn: Turn, x: u64, s: usize) -> bool
    requires { s < turn.wheel.n }
    ensures { result ≡ stays row.now turn.wheel.n turn.shift x s }
{
    measure::has_slot(x, s) && row[turn.seen(PathSlot(s)).0] == 0
}

// The slots of x whose cells in the row are free.
pub fn still_free(row: &[u8; 64], turn: Turn, x: u64) -> u64
    ensures { result ≡ set_of (stays row.now turn.wheel.n turn.shift x) 0 turn.wheel.n }
{
    let n = turn.wheel.n;
    let mut y: u64 = 0;
    for s in (0..n).rev() {
        y = 2 * y + u64::from(stays(row, turn, x, s));
    }
    y
}

// Writes v into the cells of a row that the slots x reach. The row is a slice and no array: what the
// table holds after a part of it was lent as an array, a proof does not learn.
pub fn mark_row(row: &mut [u8], turn: Turn, x: u64, v: u8)
    requires { length row.old ≡ 64 }
    ensures { RowStamped turn.wheel.n turn.shift x v row.old row.new }
{
    let n = turn.wheel.n;
    for s in 0..n {
        if measure::has_slot(x, s) {
            let at = turn.seen(PathSlot(s));
            row[at.0] = v;
        }
    }
}

// Whether the cells of a row that the slots x reach hold v.
pub fn row_holds(row: &[u8; 64], turn: Turn, x: u64, v: u8) -> bool
    ensures { Tells result (RowHolds turn.wheel.n turn.shift x v row.now) }
{
    let n = turn.wheel.n;
    for s in 0..n {
        if measure::has_slot(x, s) && row[turn.seen(PathSlot(s)).0] != v {
            return false;
        }
    }
    true
}
