// The engine of selection: the best set of free slots, by a search over the starts. At each start
// the wheel is a line whose tables say what it is worth; a start that by a simple bound cannot win
// is passed over, and a later start wins only if it is strictly better.
#![tactic(auto)]

ghost use Rattle.std.specs.Prelude.{◌≡◌};
ghost use Rattle.rules.specs.Wheels.{Legal, words};
ghost use Rattle.rules.specs.Promises.{Grants};
ghost use Rattle.optimum.specs.Search.{Sofar};
ghost use Rattle.optimum.specs.Answer.{Meetable};

use line::{Cut, Tables, Task};
use optimum::Found;
use rules::{Grant, PathSlot, Wheel, Words};

// The best of all starts.
fn search(task: Task) -> Option<Found>
    ensures { Sofar task task.wheel.n result }
{
    let period = task.wheel.p;
    let least = bound::fewest(task, period, 0, task.wheel.n)?;
    let mut tables = Tables {
        heads: [0; 4096],
        tails: [0; 4096],
    };
    let mut best = None;
    for start in 0..enough::enough(task) {
        if bound::hopeless(task, period, least, best) {
            return best;
        }
        let cut = Cut {
            task,
            start: PathSlot(start),
        };
        best = tries::try_start(&mut tables, cut, least, best);
    }
    best
}

// All free slots, where they are the whole wheel.
fn whole(w: Wheel, free: u64) -> Grant
    requires { Legal w }
    ensures { (result.slots ≡ free) × (result.count ≡ w.n) × (result.words.0 ≡ words w free) }
{
    Grant {
        slots: free,
        count: w.n,
        words: runs::words(w, free),
    }
}

// The best set of free slots (rule 6), for a demand that all free slots together meet.
pub fn best(w: Wheel, free: u64, words: Words, limit: u16) -> Grant
    requires { Meetable w free words.0 limit }
    ensures { Grants w free words.0 limit result }
{
    if w.n < 2 {
        return whole(w, free);
    }
    let task = Task {
        wheel: w,
        free,
        words,
        limit: w.n.min(usize::from(limit)),
    };
    match search(task) {
        Some(found) => {
            Grant {
                slots: found.slots,
                count: found.count,
                words: Words(found.value - 1),
            }
        }
        None => whole(w, free),
    }
}
