// The heads of one position: what a packet that begins there and all that follows it come to.
#![tactic(auto)]

ghost use Rattle.std.specs.Prelude.{ℕ, ◌+◌, ◌-◌, ◌*◌, ◌<◌, ◌≤◌, min};
ghost use Rattle.line.specs.Tables.{entry, pack_most};
ghost use Rattle.line.specs.Rows.{Filled, HeadRow, Held};

use line::Task;

// The heads at p become the most that a packet of 1 to m slots and the tail after it come to.
fn packets(heads: &mut [u16; 4096], tails: &[u16; 4096], task: Task, p: usize, m: usize, cap: usize)
    requires in_bounds { (p + m < 64) × (m ≤ cap) × (cap < 64) }
    requires by_index { (q i : ℕ) → 1 ≤ q → q ≤ m → q + i ≤ cap → entry tails.now (p + q - 1) i ≤ 4097 }
    ensures { Filled heads.old heads.new (p * 64) (cap + 1) (λ k. pack_most task tails.now p k 1 (min m k)) }
{
    let row = &mut heads[p * 64..p * 64 + cap + 1];
    row.fill(0);
    for q in 1..m + 1 {
        let after = (p + q - 1) * 64;
        let words = positions::packet_words(task, q);
        fills::raise(&mut row[q..], &tails[after..after + cap + 1 - q], words);
    }
}

// The heads at p, of 0 to `cap` slots, where the f slots from p on are open. After a full packet
// another may follow at once.
pub fn head_row(
    heads: &mut [u16; 4096],
    tails: &[u16; 4096],
    task: Task,
    p: usize,
    f: usize,
    cap: usize,
)
    requires in_bounds { (p + f < 64) × (cap < 64) }
    requires held { Held task heads.old tails.now p f cap }
    ensures { HeadRow task cap (cap + 1) p f tails.now heads.old heads.new }
{
    let period = task.wheel.p;
    packets(heads, tails, task, p, period.min(f).min(cap), cap);
    if f <= period || cap < period {
        return;
    }
    let words = positions::packet_words(task, period);
    let (row, later) = heads.split_at_mut((p + period) * 64);
    fills::raise(
        &mut row[p * 64 + period..p * 64 + cap + 1],
        &later[..cap + 1 - period],
        words,
    );
}
