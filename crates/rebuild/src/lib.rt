// The set behind a value. The tables say how much the best choice is worth; going through them
// packet by packet gives the first of the choices that are worth as much (rule 6).
#![tactic(auto)]

ghost use Rattle.std.specs.Prelude.{◌≡◌, ℕ, ◌+◌, ◌-◌, ◌^◌, ◌<◌, ◌≤◌, get_or};
ghost use Rattle.line.specs.Values.{raised};
ghost use Rattle.line.specs.Packets.{packet_words};
ghost use Rattle.line.specs.Tables.{entry};
ghost use Rattle.line.specs.Rows.{Solved};
ghost use Rattle.line.specs.Choice.{bits_run};
ghost use Rattle.line.specs.Rebuild.{greedy_set, left, Due, Goes, LongestIf, NextHeadIf, Stepped};

use line::{Cut, Tables, Task};

// The set x with the m slots from position d on.
fn add_run(x: u64, cut: Cut, d: usize, m: usize) -> u64
    requires { (d + m ≤ 64) × (x + bits_run cut.task cut.start.0 d m < 2 ^ 64) }
    ensures { result ≡ x + bits_run cut.task cut.start.0 d m }
{
    let mut y = x;
    for i in 0..m {
        let slot = (cut.start.0 + (d + i)) % cut.task.wheel.n;
        y += 1 << slot;
    }
    y
}

// The longest packet of at most m slots at p that comes to v with the tail after it.
fn longest(tails: &[u16; 4096], task: Task, p: usize, k: usize, m: usize, v: u16) -> Option<usize>
    requires m_bound { (p + m ≤ 64) × (m ≤ k) × (k < 64) }
    requires by_index { (q : ℕ) → 1 ≤ q → q ≤ m → entry tails.now (p + q - 1) (k - q) ≤ 4097 }
    ensures { LongestIf task p k m v tails.now result }
{
    for q in (1..m + 1).rev() {
        let words = positions::packet_words(task, q);
        if positions::raised(words, tails[(p + q - 1) * 64 + (k - q)]) == v {
            return Some(q);
        }
    }
    None
}

// The first position from `from` on, and before `end`, whose head of k slots is w.
fn next_head(heads: &[u16; 4096], k: usize, from: usize, end: usize, w: u16) -> Option<usize>
    requires { (k < 64) × (end ≤ 64) }
    ensures { NextHeadIf heads.now k from end w result }
{
    for p in from..end {
        if heads[p * 64 + k] == w {
            return Some(p);
        }
    }
    None
}

// Whether the run goes on after a full packet at p, where f slots are open and v is to be attained.
fn goes_on(heads: &[u16; 4096], task: Task, p: usize, f: usize, k: usize, v: u16) -> bool
    requires f_bound { (p + f < 64) × (k < 64) }
    requires p_bound { task.wheel.p < f → task.wheel.p < k → entry heads.now (p + task.wheel.p) (k - task.wheel.p) ≤ 4097 }
    ensures { Goes task.wheel.p f k
        (raised (packet_words task task.wheel.p) (entry heads.now (p + task.wheel.p) (k - task.wheel.p))) v result }
{
    let period = task.wheel.p;
    if f <= period || k <= period {
        return false;
    }
    let words = positions::packet_words(task, period);
    positions::raised(words, heads[(p + period) * 64 + (k - period)]) == v
}

// How far the rebuilding has come: the set so far, the position of the next packet, and how many
// slots are left to take.
#[derive(Clone, Copy)]
struct Spot {
    slots: u64,
    p: usize,
    k: usize,
}

impl Spot {
    // The packet at the spot is added: a full one if the run goes on after it, and otherwise the
    // longest; then the next packet begins at the first position that attains the rest.
    fn step(self, tables: &Tables, cut: Cut) -> Spot
        requires room { (1 ≤ self.k) × (self.k < 64) × (self.slots + left cut.task cut.start.0 self.p self.k < 2 ^ 64) }
        requires solved { Solved cut.task cut.start.0 self.k tables.now.heads tables.now.tails × Due cut.task cut.start.0 self.p self.k }
        ensures { Stepped cut.task cut.start.0 self.slots self.p self.k result.slots result.p result.k }
    {
        let period = cut.task.wheel.p;
        let p = self.p;
        let k = self.k;
        let f = positions::free_run(cut, p);
        let v = tables.heads[p * 64 + k];
        if goes_on(&tables.heads, cut.task, p, f, k, v) {
            return Spot {
                slots: add_run(self.slots, cut, p, period),
                p: p + period,
                k: k - period,
            };
        }
        let m = period.min(f.min(k));
        let q = longest(&tables.tails, cut.task, p, k, m, v).unwrap();
        let slots = add_run(self.slots, cut, p, q);
        if k == q {
            return Spot { slots, p, k: 0 };
        }
        let w = tables.tails[(p + q - 1) * 64 + (k - q)];
        let last = cut.task.wheel.n - 1;
        Spot {
            slots,
            p: next_head(&tables.heads, k - q, p + q + 1, last, w).unwrap(),
            k: k - q,
        }
    }
}

// The set of the first choice of k slots at the cut that is worth as much as the tables say.
pub fn rebuild(tables: &Tables, cut: Cut, k: usize) -> u64
    requires some { (1 ≤ k) × (k < 64) × (0 < get_or tables.now.heads k 0) }
    requires solved { Solved cut.task cut.start.0 k tables.now.heads tables.now.tails }
    ensures { result ≡ greedy_set cut.task cut.start.0 k }
{
    let mut at = Spot { slots: 0, p: 0, k };
    while 0 < at.k {
        at = at.step(tables, cut);
    }
    at.slots
}
