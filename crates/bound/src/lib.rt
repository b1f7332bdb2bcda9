// A bound without tables: how many words a number of slots delivers at most, and so how few slots
// may do and when a start cannot win.
#![tactic(auto)]

ghost use Rattle.std.specs.Prelude.{◌≡◌, true, ℕ, ◌+◌, ◌-◌, ◌*◌, ◌≤◌};
ghost use Rattle.line.specs.Bound.{Paid};
ghost use Rattle.optimum.specs.Search.{slots_of, Short, Fewest, Hopeless};

use line::Task;
use optimum::Found;

// So many headers at least are paid by k slots whose first packet has at most f: each brings at
// most P slots, and each but the first is needed for a gap.
#[tactic(auto, using(line::specs::Bound::ceil_least))]
fn least_headers(task: Task, f: usize, k: usize) -> usize
    requires { k ≤ task.wheel.n }
    ensures { (result ≤ 192) × ((c : ℕ) → k + (task.wheel.p - f) ≤ c * task.wheel.p → task.wheel.n ≤ k + c * (task.limit - 1) → result ≤ c) }
{
    let period = task.wheel.p;
    let for_slots = (k + period.saturating_sub(f)).div_ceil(period);
    if task.limit < 2 {
        return for_slots;
    }
    let for_gaps = (task.wheel.n - k).div_ceil(task.limit - 1);
    for_slots.max(for_gaps)
}

// No k slots whose first packet has at most f deliver more words than this. With a limit of 1 only
// the full wheel will do.
fn most_words(task: Task, f: usize, k: usize) -> u16
    requires { k ≤ task.wheel.n }
    ensures { (v : ℕ) → Paid task f k v → v ≤ result }
{
    if task.limit < 2 && k < task.wheel.n {
        return 0;
    }
    let all = (k as u16) * task.wheel.s.0;
    let paid = (least_headers(task, f, k) as u16) * task.wheel.h.0;
    all.saturating_sub(paid)
}

// The fewest slots, from `from` on and before `end`, that by the bound may deliver the words.
pub fn fewest(task: Task, f: usize, from: usize, end: usize) -> Option<usize>
    requires { (end ≤ task.wheel.n) × Short task f from }
    ensures { Fewest task f end result }
{
    for k in from..end {
        if task.words.0 <= most_words(task, f, k) {
            return Some(k);
        }
    }
    None
}

// Whether by the bound no start whose free run has at most f slots does better than `best`, where
// fewer than `least` slots never deliver the words.
pub fn hopeless(task: Task, f: usize, least: usize, best: Option<Found>) -> bool
    requires { (slots_of task best ≤ task.wheel.n) × Short task f least }
    ensures { result ≡ true → Hopeless task f best }
{
    match best {
        Some(found) => {
            fewest(task, f, least, found.count).is_none()
                && most_words(task, f, found.count) < found.value
        }
        None => fewest(task, f, least, task.wheel.n).is_none(),
    }
}
