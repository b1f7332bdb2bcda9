// The tests of a path and of one record of the flow list: is every entry a channel, does none stand
// twice, are unused entries zero, does the record obey its own rules.
#![tactic(auto)]

ghost use Rattle.std.specs.Prelude.{◌≡◌, ◌≤◌, ◌<◌};
ghost use Rattle.rules.specs.Tells.{Tells};
ghost use Rattle.rules.specs.Wheels.{Legal};
ghost use Rattle.rules.specs.Best.{Meets};
ghost use Rattle.rules.specs.Paths.{Inside, Once, Rest};
ghost use Rattle.rules.specs.Flows.{claiming, Blank, Lawful, Own, cells_of};
ghost use Rattle.flows.specs.Tests.{Fresh};

use rules::{Chip, Demand, Path, Record, State, Wheel};

// Whether every entry is below the number of channels.
pub fn inside(path: Path, channels: usize) -> bool
    requires { path.len ≤ 16 }
    ensures { Tells result (Inside channels path.entries path.len) }
{
    for i in 0..path.len {
        if channels <= route::channel(path, i) {
            return false;
        }
    }
    true
}

// Whether no entry before k is the entry at k.
fn fresh(path: Path, k: usize) -> bool
    requires { k < 16 }
    ensures { Tells result (Fresh path.entries k) }
{
    let entries = path.entries;
    !entries[..k].contains(&entries[k])
}

// Whether no channel stands twice.
pub fn once(path: Path) -> bool
    requires { path.len ≤ 16 }
    ensures { Tells result (Once path.entries path.len) }
{
    for k in 0..path.len {
        if !fresh(path, k) {
            return false;
        }
    }
    true
}

// Whether the entries from len on are zero.
pub fn rest(path: Path) -> bool
    ensures { Tells result (Rest path.entries path.len) }
{
    for i in path.len..16 {
        if path.entries[i] != 0 {
            return false;
        }
    }
    true
}

// Whether the slots x deliver enough words and leave no gap above the limit (rule 5).
pub fn meets(w: Wheel, words: u16, limit: usize, x: u64) -> bool
    requires { Legal w }
    ensures { Tells result (Meets w words limit x) }
{
    words <= measure::words(w, x).0 && measure::largest_gap(w, x) <= limit
}

// Whether a flow in this state claims cells.
#[tactic(auto, unfolding(rules::specs::Flows::claiming))]
pub fn claims_cells(s: State) -> bool
    ensures { result ≡ claiming s }
{
    matches!(s, State::Open(_))
}

// Whether a closed record has zeros.
fn blank(r: Record) -> bool
    ensures { Tells result (Blank r) }
{
    r.path.len == 0 && r.slots == 0 && rest(r.path)
}

// Whether an open record with the demand d obeys its rules.
#[tactic(auto, unfolding(rules::specs::Paths::allowed))]
fn lawful(chip: Chip, d: Demand, r: Record) -> bool
    requires { Legal chip.wheel }
    ensures { Tells result (Lawful chip d r) }
{
    let path = r.path;
    if path.len < 1 || 16 < path.len {
        return false;
    }
    let deadline = usize::from(d.deadline);
    let travel = route::travel(chip, path);
    inside(path, chip.channels)
        && once(path)
        && rest(path)
        && 1 <= d.words.0
        && travel < deadline
        && measure::below(r.slots, chip.wheel.n)
        && meets(chip.wheel, d.words.0, deadline - travel, r.slots)
}

// Whether a record obeys its own rules.
#[tactic(auto, unfolding(rules::specs::Flows::Own))]
pub fn own(chip: Chip, r: Record) -> bool
    requires { Legal chip.wheel }
    ensures { Tells result (Own chip r.state r) }
{
    match r.state {
        State::Closed => blank(r),
        State::Open(d) => lawful(chip, d, r),
    }
}

// How many cells a record's flow holds: slots times path length, and none if it claims none.
pub fn cells_of(w: Wheel, r: Record) -> usize
    requires legal { Legal w }
    requires len_bound { r.path.len ≤ 16 }
    ensures { result ≡ cells_of w r }
{
    if !claims_cells(r.state) {
        return 0;
    }
    measure::size(w, r.slots) * r.path.len
}
