// What the line at one start is worth: its tables, filled as far as they are needed.
#![tactic(auto)]

ghost use Rattle.std.specs.Prelude.{◌<◌, ◌≤◌};
ghost use Rattle.optimum.specs.Search.{FirstOver, Weighed};

use line::{Cut, Tables};

// The fewest slots, up to `cap`, that are worth more than `words`.
fn first_over(heads: &[u16; 4096], cap: usize, words: u16) -> Option<usize>
    requires { cap < 64 }
    ensures { FirstOver heads.now cap words result }
{
    for k in 0..cap + 1 {
        if words < heads[k] {
            return Some(k);
        }
    }
    None
}

// Where to cap the tables of a wheel of n slots at first. While nothing is found, the fewest slots
// that may do are often, but for one or two, what it takes; afterwards the cap itself is low.
fn first_cap(n: usize, least: usize, cap: usize) -> usize
    requires { cap < 64 }
    ensures { result ≤ cap }
{
    if cap + 1 < n {
        cap
    } else {
        cap.min(least.saturating_add(2))
    }
}

// Fills the tables at the cut as far as they are needed, and says the fewest slots, up to `cap`,
// that are worth more than the words asked for.
#[tactic(auto, using(optimum::specs::Search::weighed_all))]
pub fn weigh(tables: &mut Tables, cut: Cut, least: usize, cap: usize) -> Option<usize>
    requires { cap < 64 }
    ensures { Weighed cut.task cut.start.0 cap tables.new.heads tables.new.tails result }
{
    let words = cut.task.words.0;
    let near = first_cap(cut.task.wheel.n, least, cap);
    yields::fill(tables, cut, near);
    let first = first_over(&tables.heads, near, words);
    if near == cap || first.is_some() {
        return first;
    }
    yields::fill(tables, cut, cap);
    first_over(&tables.heads, cap, words)
}
