// Holds bare selection against the searches written apart: on what document 01 says of it, on
// refusals that meet, and on every free set of small wheels with every number of words and every
// limit; there the exact search, which other tests use above N 10, is held against the search through
// all sets too. A selection is printed as a set in decimals, how many slots, and words; or as a no.
#![tactic(auto)]

ghost use Rattle.std.specs.Prelude.{◌≡◌, ◌≤◌};

use apart::{Asked, Grant, Listed, No};
use rules::{Refusal, Wheel, Words};
use std::io;

// What a selection answers, of the library and of the searches apart: a grant, or a refusal's number.
type Answer = Result<Grant, u64>;

// How many selections were made, how many of them differ from the search apart, and how many were
// granted, refused by 13 and refused by 14.
#[derive(Clone, Copy, Default)]
struct Tally {
    tried: u64,
    differ: u64,
    granted: u64,
    too_much: u64,
    too_far: u64,
}

impl Tally {
    // One selection more: what the library answers, and what the searches apart do; nothing where
    // these differ from one another.
    fn note(&mut self, answer: Answer, apart: Option<Answer>) {
        self.tried = self.tried.wrapping_add(1);
        if apart != Some(answer) {
            self.differ = self.differ.wrapping_add(1);
        }
        match answer {
            Ok(_) => self.granted = self.granted.wrapping_add(1),
            Err(no) if no == No::TooMuch as u64 => self.too_much = self.too_much.wrapping_add(1),
            Err(no) if no == No::TooFar as u64 => self.too_far = self.too_far.wrapping_add(1),
            Err(_) => {}
        }
    }
}

// What selection answers, in the form of the searches apart.
fn plain_answer(answer: Result<rules::Grant, Refusal>) -> Answer {
    match answer {
        Ok(set) => Ok(Grant {
            slots: set.slots,
            count: set.count as u64,
            words: u64::from(set.words.0),
        }),
        Err(no) => Err(u64::from(numbers::number(no))),
    }
}

// A wheel of plain numbers.
fn wheel(n: usize, s: u16, h: u16, p: usize) -> Wheel
    ensures { result.n ≡ n }
{
    Wheel {
        n,
        s: Words(s),
        h: Words(h),
        p,
    }
}

// Bare selection on a wheel.
fn select(w: Wheel, free: u64, words: u16, limit: u16) -> Answer {
    plain_answer(select::select(w, free, Words(words), limit))
}

// Prints a line with an answer.
fn show(rt: HostRuntime, name: &str, answer: Answer) -> io::Result<()> {
    match answer {
        Ok(set) => println!(rt;
            "{name}: set {} slots {} words {}",
            set.slots, set.count, set.words
        ),
        Err(no) => println!(rt; "{name}: refused {no}"),
    }
}

// Bare selection on the default wheel.
fn usual(free: u64, words: u16, limit: u16) -> Answer {
    select(wheel(8, 3, 1, 3), free, words, limit)
}

// P6 to P9 of document 01; a path of one channel takes one slot, so L is D less 1.
fn examples(rt: HostRuntime) -> io::Result<()> {
    show(rt, "P6", usual(117, 8, 8))?;
    show(rt, "P7", usual(25, 3, 8))?;
    show(rt, "P7 with D 4", usual(25, 3, 3))?;
    show(rt, "P8", usual(153, 5, 8))?;
    show(rt, "P9 with D 5", usual(34, 4, 4))?;
    show(rt, "P9 with D 4", usual(34, 4, 3))
}

// P10, and what document 01 wants run.
fn examples_run(rt: HostRuntime) -> io::Result<()> {
    show(rt, "P10", usual(255, 21, 8))?;
    show(rt, "P10 with W 22", usual(255, 22, 8))?;
    show(rt, "L 0", usual(255, 3, 0))?;
    show(rt, "L 1 and all free", usual(255, 3, 1))?;
    show(rt, "L 1 and all free but one", usual(127, 3, 1))?;
    show(rt, "no slot free", usual(0, 1, 8))?;
    show(rt, "W 0 with L 0", usual(255, 0, 0))?;
    show(rt, "slot 8 of 8 free", usual(256, 1, 8))
}

// 1 beside each other condition.
fn wheel_first(rt: HostRuntime) -> io::Result<()> {
    show(rt, "N 0, and slot 8", select(wheel(0, 3, 1, 3), 256, 1, 8))?;
    show(rt, "S 1, and W 0", select(wheel(8, 1, 0, 3), 255, 0, 8))?;
    show(rt, "H 3, and L 0", select(wheel(8, 3, 3, 3), 255, 1, 0))?;
    show(rt, "P 0, and W 22", select(wheel(8, 3, 1, 0), 255, 22, 8))?;
    show(rt, "N 65, and gap 8", select(wheel(65, 3, 1, 3), 1, 1, 7))?;
    show(
        rt,
        "S 65, and slot 63",
        select(wheel(8, 65, 1, 3), 9223372036854775808, 1, 8),
    )?;
    show(rt, "P 65, and W 0", select(wheel(8, 3, 1, 65), 255, 0, 8))
}

// 15 beside each later condition.
fn slot_second(rt: HostRuntime) -> io::Result<()> {
    show(rt, "slot 8, and W 0", usual(256, 0, 8))?;
    show(rt, "slot 63, and L 0", usual(9223372036854775808, 1, 0))?;
    show(rt, "slot 8, and W 65535", usual(257, 65535, 8))?;
    show(rt, "slot 8, and gap 8", usual(257, 1, 7))
}

// 11 and 12 beside each later condition, and 13 before 14.
fn demand_last(rt: HostRuntime) -> io::Result<()> {
    show(rt, "W 0, and L 0", usual(255, 0, 0))?;
    show(rt, "W 0, and no slot free", usual(0, 0, 8))?;
    show(rt, "W 0, and gap 8", usual(1, 0, 7))?;
    show(rt, "L 0, and no slot free", usual(0, 1, 0))?;
    show(rt, "L 0, and W 22", usual(255, 22, 0))?;
    show(rt, "W 3, and gap 8", usual(1, 3, 7))?;
    show(rt, "W 2, and gap 8", usual(1, 2, 7))
}

// The largest value in each place in turn.
fn largest_values(rt: HostRuntime) -> io::Result<()> {
    show(rt, "N 65535", select(wheel(65535, 3, 1, 3), 255, 1, 8))?;
    show(rt, "S 65535", select(wheel(8, 65535, 1, 3), 255, 1, 8))?;
    show(rt, "H 65535", select(wheel(8, 3, 65535, 3), 255, 1, 8))?;
    show(rt, "P 65535", select(wheel(8, 3, 1, 65535), 255, 1, 8))?;
    show(rt, "W 65535", usual(255, 65535, 8))?;
    show(rt, "L 65535", usual(255, 21, 65535))?;
    show(
        rt,
        "N 64, W 65535",
        select(wheel(64, 64, 0, 64), u64::MAX, 65535, 65535),
    )?;
    show(
        rt,
        "N 64, W 4096",
        select(wheel(64, 64, 0, 64), u64::MAX, 4096, 65535),
    )
}

// The same wheel for the searches apart.
fn plain(w: Wheel) -> apart::Wheel {
    apart::Wheel {
        n: w.n as u64,
        s: u64::from(w.s.0),
        h: u64::from(w.h.0),
        p: w.p as u64,
    }
}

// What the search apart through all sets answers; nothing where the exact one, which is run too at
// every free set up to N 8 and above that at each eighth, answers otherwise.
fn searched(listed: &Listed, asked: Asked) -> Option<Answer> {
    let found = listed.search(asked);
    if (asked.wheel.n <= 8 || asked.free % 8 == 7) && found != exact::select(asked) {
        return None;
    }
    Some(found.map_err(|no| no as u64))
}

// Every selection on a wheel of at most ten slots: every set of free slots, every number of words up
// to one more than the most that the free slots deliver, and every limit up to one above N.
fn all_selections(tally: &mut Tally, w: Wheel)
    requires { w.n ≤ 10 }
{
    let listed = plain(w).listed();
    for free in 0..1 << w.n {
        let most = listed.most_words(free).min(640) as u16;
        for words in 0..=most + 1 {
            for limit in 0..=w.n as u16 + 1 {
                let found = searched(
                    &listed,
                    Asked {
                        wheel: plain(w),
                        free,
                        words: u64::from(words),
                        limit: u64::from(limit),
                    },
                );
                tally.note(select(w, free, words, limit), found);
            }
        }
    }
}

// Every selection on the wheels of 1 to 10 slots with these values.
fn all_wheels(s: u16, h: u16, p: usize) -> Tally {
    let mut tally = Tally::default();
    for n in 1..=10 {
        all_selections(&mut tally, wheel(n, s, h, p));
    }
    tally
}

// Prints what was counted on the wheels with these values.
fn sweep(rt: HostRuntime, s: u16, h: u16, p: usize) -> io::Result<()> {
    let t = all_wheels(s, h, p);
    print!(rt;
        "S {s} H {h} P {p}: {} selections, {} differ; ",
        t.tried, t.differ
    )?;
    println!(rt;
        "{} granted, {} refused 13, {} refused 14",
        t.granted, t.too_much, t.too_far
    )
}

fn main(rt: HostRuntime) -> io::Result<()> {
    examples(rt)?;
    examples_run(rt)?;
    wheel_first(rt)?;
    slot_second(rt)?;
    demand_last(rt)?;
    largest_values(rt)?;
    sweep(rt, 3, 1, 3)?;
    sweep(rt, 3, 0, 3)?;
    sweep(rt, 4, 2, 1)?;
    sweep(rt, 3, 2, 20)?;
    sweep(rt, 2, 1, 2)
}
