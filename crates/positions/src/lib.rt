// The positions of the line at one start: which may be chosen, how long a run may begin there, and
// what a packet there is worth. A value is the words plus one, and 0 for what cannot be.
#![tactic(auto)]

ghost use Rattle.std.specs.Prelude.{◌≡◌, ◌+◌, ◌<◌, ◌≤◌, max};
ghost use Rattle.line.specs.Values.{raised};
ghost use Rattle.line.specs.Packets.{packet_words, opens};
ghost use Rattle.line.specs.Tables.{FreeRun};

use line::{Cut, Task};

// The better of two values: every choice that the tables make is made here.
pub fn better(a: u16, b: u16) -> u16
    ensures { result ≡ max a b }
{
    a.max(b)
}

// The value v with `words` more on top of it.
pub fn raised(words: u16, v: u16) -> u16
    requires { words + v < 65536 }
    ensures { result ≡ raised words v }
{
    if v == 0 { 0 } else { words + v }
}

// The words of a packet of q slots.
pub fn packet_words(task: Task, q: usize) -> u16
    requires { (1 ≤ q) × (q ≤ 64) }
    ensures { result ≡ packet_words task q }
{
    (q as u16) * task.wheel.s.0 - task.wheel.h.0
}

// Whether the slot at position d may be chosen: it is free, and not the last one.
pub fn opens(cut: Cut, d: usize) -> bool
    requires { d < cut.task.wheel.n }
    ensures { result ≡ opens cut.task cut.start.0 d }
{
    let n = cut.task.wheel.n;
    d + 1 < n && slots::has_slot(cut.task.free, (cut.start.0 + d) % n)
}

// How many slots are open from position p on.
pub fn free_run(cut: Cut, p: usize) -> usize
    requires { p < cut.task.wheel.n }
    ensures { (p + result < cut.task.wheel.n) × FreeRun cut.task cut.start.0 p result }
{
    let last = cut.task.wheel.n - 1;
    for f in 0..last - p {
        if !opens(cut, p + f) {
            return f;
        }
    }
    last - p
}
