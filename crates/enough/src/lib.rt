// How many starts the search has to try.
#![tactic(auto)]

ghost use Rattle.optimum.specs.Later.{Enough};

use line::{Cut, Task};
use rules::PathSlot;

// So many starts are enough. A set that keeps the gaps has a start less than `limit` slots after any
// slot that is not free; and where all are free, every start is like the first.
#[tactic(auto, using(optimum::specs::Later::enough_one, optimum::specs::Later::enough_before))]
pub fn enough(task: Task) -> usize
    ensures { Enough task result }
{
    let n = task.wheel.n;
    let first = Cut {
        task,
        start: PathSlot(0),
    };
    let f = positions::free_run(first, 0);
    if f + 1 == n && slots::has_slot(task.free, f) {
        return 1;
    }
    n.min(task.limit + f)
}
