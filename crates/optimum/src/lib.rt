// From the line back to the wheel: what the best choices of the lines at all starts say about the
// best set of rule 6. There is no function here, only what a search has found; the argument stands
// in `specs/`.
#![tactic(auto)]

use rules::PathSlot;

// A choice that a search has found: how many slots, its value, its start and its set. A value is the
// words plus one.
#[derive(Clone, Copy)]
pub struct Found {
    pub count: usize,
    pub value: u16,
    pub start: PathSlot,
    pub slots: u64,
}
