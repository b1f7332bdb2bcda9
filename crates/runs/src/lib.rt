// What the runs of a set of slots come to: its size, its words (rule 2) and its largest gap (rule 3).
// Each takes every wheel and every set; for a wheel outside its ranges it answers 0, and slots from N
// on are passed over.
#![tactic(auto)]

ghost use Rattle.std.specs.Prelude.{◌≡◌, ◌+◌, ◌%◌, ◌≤◌, ◌<◌};
ghost use Rattle.rules.specs.Sets.{sum, stretch};
ghost use Rattle.rules.specs.Wheels.{Legal, Measured, chosen, size, run_words, words_at, words, gap_at, largest_gap};

use rules::{Wheel, Words};

// The slot after slot i, round the wheel and without a division.
#[tactic(auto, using(crate::specs::Steps::first_turn, crate::specs::Steps::second_turn))]
fn after(i: usize, n: usize) -> usize
    requires { i < n }
    ensures next { result ≡ (i + 1) % n }
    ensures below { result < n }
{
    if i + 1 < n { i + 1 } else { 0 }
}

// How many slots of x follow one another from slot `from` on, going round the wheel, and at most
// `limit`.
#[tactic(auto, using(crate::specs::Steps::first_turn))]
fn stretch(x: u64, n: usize, from: usize, limit: usize) -> usize
    requires wheel { n ≤ 64 }
    requires slot { from < n }
    ensures counted { result ≡ stretch (chosen n x) from limit }
    ensures limited { result ≤ limit }
{
    let mut slot = from;
    for count in 0..limit {
        if !slots::has_slot(x, slot) {
            return count;
        }
        slot = after(slot, n);
    }
    limit
}

// The words of a run of q slots.
fn run_words(w: Wheel, q: usize) -> usize
    requires legal { Legal w }
    requires q_bound { q ≤ 64 }
    ensures { result ≡ run_words w q }
{
    let s = usize::from(w.s.0);
    let h = usize::from(w.h.0);
    q * s - q.div_ceil(w.p) * h
}

// The words of the run that starts at slot i; 0 where none does.
fn words_at(w: Wheel, x: u64, i: usize) -> usize
    requires legal { Legal w }
    requires i_lt_n { i < w.n }
    ensures { result ≡ words_at w x i }
{
    let n = w.n;
    if starts::is_start(x, n, i) {
        run_words(w, stretch(x, n, i, n))
    } else {
        0
    }
}

// The words of all runs, for a wheel that is not full.
fn words_of_runs(w: Wheel, x: u64) -> usize
    requires { Legal w }
    ensures { result ≡ sum (words_at w x) 0 w.n }
{
    let n = w.n;
    let mut total = 0;
    for i in 0..n {
        total += words_at(w, x, i);
    }
    total
}

// The words that the set x delivers (rule 2).
pub fn words(w: Wheel, x: u64) -> Words
    ensures { Measured w (words w x) result.0 }
{
    if !slots::legal(w) {
        return Words(0);
    }
    let n = w.n;
    if stretch(x, n, 0, n) == n {
        return Words(run_words(w, n) as u16);
    }
    Words(words_of_runs(w, x) as u16)
}

// The gap after slot i; 0 where it is not chosen. The slots that are not chosen are those of the
// complement.
fn gap_at(x: u64, n: usize, i: usize) -> usize
    requires { (n ≤ 64) × (i < n) }
    ensures { result ≡ gap_at n x i }
{
    if slots::has_slot(x, i) {
        1 + stretch(!x, n, after(i, n), n - 1)
    } else {
        0
    }
}

// The largest gap after a slot of x (rule 3); 0 for the empty set.
pub fn largest_gap(w: Wheel, x: u64) -> usize
    ensures { Measured w (largest_gap w.n x) result }
{
    if !slots::legal(w) {
        return 0;
    }
    let n = w.n;
    let mut most = 0_usize;
    for i in 0..n {
        most = most.max(gap_at(x, n, i));
    }
    most
}

// How many slots of the wheel the set x has.
pub fn size(w: Wheel, x: u64) -> usize
    ensures { Measured w (size w.n x) result }
{
    if !slots::legal(w) {
        return 0;
    }
    let n = w.n;
    let mut count = 0;
    for i in 0..n {
        if slots::has_slot(x, i) {
            count += 1;
        }
    }
    count
}
