// One start more: it is passed over if by the bound it cannot win, and wins only if it is strictly
// better than the starts before it.
#![tactic(auto)]

ghost use Rattle.std.specs.Prelude.{◌≡◌, Some, ◌+◌};
ghost use Rattle.rules.specs.Tells.{Tells};
ghost use Rattle.optimum.specs.Search.{Sofar, Short, Improves, cap_of};

use line::{Cut, Tables, Task};
use optimum::Found;

// How many slots a choice may have that does better than `best`.
fn cap(task: Task, best: Option<Found>) -> usize
    ensures { result ≡ cap_of task best }
{
    match best {
        Some(found) => found.count,
        None => task.wheel.n - 1,
    }
}

// Whether k slots of the value v do better than `best`.
fn improves(k: usize, v: u16, best: Option<Found>) -> bool
    ensures { Tells result (Improves best k v) }
{
    match best {
        Some(found) => k < found.count || found.value < v,
        None => true,
    }
}

// The best of the starts so far with one more start taken into account.
pub fn try_start(tables: &mut Tables, cut: Cut, least: usize, best: Option<Found>) -> Option<Found>
    requires { Short cut.task cut.task.wheel.p least × Sofar cut.task cut.start.0 best }
    ensures { Sofar cut.task (cut.start.0 + 1) result }
{
    let f = positions::free_run(cut, 0);
    if f == 0 || bound::hopeless(cut.task, f, least, best) {
        return best;
    }
    let Some(k) = weigh::weigh(tables, cut, least, cap(cut.task, best)) else {
        return best;
    };
    let value = tables.heads[k];
    if !improves(k, value, best) {
        return best;
    }
    Some(Found {
        count: k,
        value,
        start: cut.start,
        slots: rebuild::rebuild(tables, cut, k),
    })
}
