// The tails of one position: what can follow a run that has ended there.
#![tactic(auto)]

ghost use Rattle.std.specs.Prelude.{◌≡◌, ◌+◌, ◌-◌, ◌*◌, ◌<◌, ◌≤◌, leb};
ghost use Rattle.line.specs.Values.{or_none};
ghost use Rattle.line.specs.Tables.{most_of};
ghost use Rattle.line.specs.Rows.{Filled, TailsMore, TailRow};

use line::Task;

// The tails at e become the best heads at the positions from e + 2 to before `end`.
fn window(tails: &mut [u16; 4096], heads: &[u16; 4096], e: usize, end: usize, cap: usize)
    requires { (e < 64) × (end ≤ 64) × (cap < 64) }
    ensures { Filled tails.old tails.new (e * 64) (cap + 1) (λ k. most_of heads.now k (e + 2) (end - (e + 2))) }
{
    let row = &mut tails[e * 64..e * 64 + cap + 1];
    row.fill(0);
    for p in e + 2..end {
        fills::lift(row, &heads[p * 64..p * 64 + cap + 1]);
    }
}

// The tail of no slot at e: whether the gap over the wrap is allowed.
fn wrap(task: Task, e: usize) -> u16
    requires { e ≤ task.wheel.n }
    ensures { result ≡ or_none (leb (task.wheel.n - e) task.limit) 1 }
{
    if task.wheel.n - e <= task.limit { 1 } else { 0 }
}

// The tails at e of 1 to `cap` slots: the best heads that the gap allows. Where the limit cuts
// nothing, the tails at e + 1 have most of that.
fn tails_more(tails: &mut [u16; 4096], heads: &[u16; 4096], task: Task, e: usize, cap: usize)
    requires { (e + 2 ≤ task.wheel.n) × (cap < 64) }
    ensures { TailsMore task cap e heads.now tails.old tails.new }
{
    let n = task.wheel.n;
    let l = task.limit;
    if n <= e + l + 1 && e + 3 < n {
        let (row, later) = tails.split_at_mut((e + 1) * 64);
        let head = (e + 2) * 64;
        fills::pick(
            &mut row[e * 64..e * 64 + cap + 1],
            &heads[head..head + cap + 1],
            &later[..cap + 1],
        );
        return;
    }
    let end = (e + l + 1).min(n - 1);
    window(tails, heads, e, end, cap);
}

// The tails at e, of 0 to `cap` slots.
pub fn tail_row(tails: &mut [u16; 4096], heads: &[u16; 4096], task: Task, e: usize, cap: usize)
    requires { (e + 2 ≤ task.wheel.n) × (cap < 64) }
    ensures { TailRow task cap (cap + 1) e heads.now tails.old tails.new }
{
    tails_more(tails, heads, task, e, cap);
    tails[e * 64] = wrap(task, e);
}
