// The measures of a set of slots, gathered for those who call them: the tests of a wheel and of a
// set, its size, its words (rule 2), its largest gap (rule 3) and its smallest start (rule 6).
#![tactic(auto)]

pub use runs::{largest_gap, size, words};
pub use slots::{below, has_slot, legal};
pub use starts::smallest_start;
