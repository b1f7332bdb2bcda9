// Where a flow is along its path: which channel stands at a position, how many slots later the flow is
// there than at its first channel, and how many slots the whole path takes.
#![tactic(auto)]

ghost use Rattle.std.specs.Prelude.{◌≡◌, ◌%◌, ◌≤◌, ◌<◌, get_or};
ghost use Rattle.rules.specs.Wheels.{Legal};
ghost use Rattle.rules.specs.Paths.{shift, travel};

use rules::{Chip, Path};

// The channel at position i.
pub fn channel(path: Path, i: usize) -> usize
    requires { i < 16 }
    ensures { result ≡ get_or path.entries i 0 }
{
    usize::from(path.entries[i])
}

// How many slots later the flow is at position i.
// On this chip each channel is one slot later than the one before; a later request gives channels delays.
#[tactic(auto, unfolding(rules::specs::Paths::shift))]
fn shift(chip: Chip, path: Path, i: usize) -> usize
    requires { i < 16 }
    ensures { result ≡ shift chip path.entries i }
{
    i
}

// The same, turned round the wheel.
pub fn turn(chip: Chip, path: Path, i: usize) -> usize
    requires { Legal chip.wheel × (i < 16) }
    ensures { (result ≡ shift chip path.entries i % chip.wheel.n) × (result < chip.wheel.n) }
{
    shift(chip, path, i) % chip.wheel.n
}

// How many slots a path takes (rule 4).
// On this chip each channel takes one slot; a later request gives channels delays.
#[tactic(auto, unfolding(rules::specs::Paths::travel))]
pub fn travel(chip: Chip, path: Path) -> usize
    requires { path.len ≤ 16 }
    ensures { result ≡ travel chip path.entries path.len }
{
    path.len
}
