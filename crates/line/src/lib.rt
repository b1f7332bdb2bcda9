// The linear problem behind selection. Cut open before one of its starts, the wheel is a line of
// positions, counted from that start; the last one, just before the start, stays empty. There is no
// function here, only what a search is asked; the problem and its answers stand in `specs/`.
#![tactic(auto)]

ghost use Rattle.std.specs.Prelude.{◌<◌};
ghost use Rattle.line.specs.Asked.{Asked};

use rules::{PathSlot, Wheel, Words};

// One search: the free slots of a wheel, the words that are wanted, and the largest gap allowed.
#[derive(Clone, Copy)]
pub struct Task {
    pub wheel: Wheel,
    pub free: u64,
    pub words: Words,
    pub limit: usize,
    pub ghost sound: { Asked wheel free words limit },
}

// A search, and the start before which its wheel is cut open.
#[derive(Clone, Copy)]
pub struct Cut {
    pub task: Task,
    pub start: PathSlot,
    pub ghost inside: { start.0 < task.wheel.n },
}

// The two tables of best words of the line at one start. Position p has its 64 entries from 64 * p on,
// the one of k slots at 64 * p + k. An entry is a value: the words plus one, and 0 for what cannot be,
// since an `Option<u16>` would make the tables twice as large in firmware's fixed memory.
// A head is for a packet that begins at the position; a tail is for a run that has ended there.
#[derive(Drop)]
pub struct Tables {
    pub heads: [u16; 4096],
    pub tails: [u16; 4096],
}
