// Holds the measures of a set against counts written apart: on all sets of small wheels, on wheels
// outside their ranges, on sets with slots beyond the wheel, and on the examples by which document
// 01 shows two mistakes of trainees. Every line counts what was tried and what differed.
#![tactic(auto)]

use rules::{Wheel, Words};
use std::io;

// How many cases were tried, and in how many of them the two sides differed.
#[derive(Clone, Copy, Default)]
struct Tally {
    tried: u64,
    differ: u64,
}

impl Tally {
    // One case more.
    fn note(&mut self, same: bool) {
        self.tried = self.tried.wrapping_add(1);
        if !same {
            self.differ = self.differ.wrapping_add(1);
        }
    }
}

// Ends a line with what a tally has counted.
fn result(rt: HostRuntime, t: Tally, cases: &str) -> io::Result<()> {
    println!(rt; "{} {cases}, {} differ", t.tried, t.differ)
}

// A wheel of plain numbers.
fn wheel(n: usize, s: u16, h: u16, p: usize) -> Wheel {
    Wheel {
        n,
        s: Words(s),
        h: Words(h),
        p,
    }
}

// The same wheel for the count apart.
fn plain(w: Wheel) -> apart::Wheel {
    apart::Wheel {
        n: w.n as u64,
        s: u64::from(w.s.0),
        h: u64::from(w.h.0),
        p: w.p as u64,
    }
}

// The words of x, as a plain number.
fn words(w: Wheel, x: u64) -> u64 {
    u64::from(measure::words(w, x).0)
}

// Whether every measure of the set x agrees with the count apart, which sees only the slots below N.
fn agree(w: Wheel, x: u64) -> bool {
    let n = w.n as u64;
    let y = apart::cut(x, n);
    measure::below(x, w.n) == (y == x)
        && words(w, x) == plain(w).words(y)
        && measure::largest_gap(w, x) as u64 == apart::largest_gap(n, y)
        && measure::smallest_start(w, x) as u64 == apart::smallest_start(n, y)
        && measure::size(w, x) as u64 == apart::size(y)
}

// Whether every measure of the set x is 0.
fn all_zero(w: Wheel, x: u64) -> bool {
    words(w, x) == 0
        && measure::largest_gap(w, x) == 0
        && measure::smallest_start(w, x) == 0
        && measure::size(w, x) == 0
}

// Whether the library says of the wheel what document 01 does, and measures x as it is counted
// apart; on a wheel outside its ranges every measure is 0.
fn right(w: Wheel, x: u64) -> bool {
    let fits = plain(w).fits();
    measure::legal(w) == fits && if fits { agree(w, x) } else { all_zero(w, x) }
}

// Whether the library's words of x are those of the mistake with a header at the wrap.
fn has_header_at_wrap(w: Wheel, x: u64) -> bool {
    words(w, x) == plain(w).words_cut_at_wrap(x)
}

// Whether the library's largest gap of x is that of the mistake with no gap over the wrap.
fn has_no_gap_over_wrap(w: Wheel, x: u64) -> bool {
    measure::largest_gap(w, x) as u64 == apart::largest_gap_before_wrap(w.n as u64, x)
}

// All sets of the wheels with 1 to 10 slots and these values: in how many the library measures as
// `same` says.
fn all_wheels<F: Fn(Wheel, u64) -> bool>(
    rt: HostRuntime,
    s: u16,
    h: u16,
    p: usize,
    same: F,
) -> io::Result<()>
    requires { F.IsAlwaysCallable same }
{
    print!(rt; "S {s} H {h} P {p}: ")?;
    let mut tally = Tally::default();
    for n in 1..=10 {
        for x in 0..1 << n {
            tally.note(same(wheel(n, s, h, p), x));
        }
    }
    result(rt, tally, "sets")
}

// A wheel at the edge of its ranges, with three sets.
fn inside(n: usize, s: u16, h: u16, p: usize) -> bool {
    let w = wheel(n, s, h, p);
    measure::legal(w) && right(w, 0) && right(w, 255) && right(w, u64::MAX)
}

// A wheel outside its ranges, with three sets: the library says no, and every measure is 0.
fn outside(n: usize, s: u16, h: u16, p: usize) -> bool {
    let w = wheel(n, s, h, p);
    !measure::legal(w) && all_zero(w, 0) && all_zero(w, 255) && all_zero(w, u64::MAX)
}

// Wheels with one value at an end of its range.
fn edges(rt: HostRuntime) -> io::Result<()> {
    let mut tally = Tally::default();
    tally.note(inside(1, 3, 1, 3));
    tally.note(inside(64, 3, 1, 3));
    tally.note(inside(8, 2, 1, 3));
    tally.note(inside(8, 64, 1, 3));
    tally.note(inside(8, 3, 0, 3));
    tally.note(inside(8, 3, 2, 3));
    tally.note(inside(8, 3, 1, 1));
    tally.note(inside(8, 3, 1, 64));
    tally.note(inside(64, 64, 63, 1));
    tally.note(inside(64, 64, 0, 64));
    print!(rt; "at the edges of the ranges: ")?;
    result(rt, tally, "wheels")
}

// Wheels with a bad number of slots.
fn bad_slots(tally: &mut Tally) {
    tally.note(outside(0, 3, 1, 3));
    tally.note(outside(65, 3, 1, 3));
    tally.note(outside(65535, 3, 1, 3));
    tally.note(outside(usize::MAX, 3, 1, 3));
}

// Wheels with a bad number of words in a slot.
fn bad_words(tally: &mut Tally) {
    tally.note(outside(8, 0, 0, 3));
    tally.note(outside(8, 1, 0, 3));
    tally.note(outside(8, 65, 1, 3));
    tally.note(outside(8, 65535, 1, 3));
}

// Wheels whose header is as long as a slot, or longer.
fn bad_header(tally: &mut Tally) {
    tally.note(outside(8, 3, 3, 3));
    tally.note(outside(8, 3, 4, 3));
    tally.note(outside(8, 64, 64, 3));
    tally.note(outside(8, 3, 65535, 3));
}

// Wheels with a bad header period.
fn bad_period(tally: &mut Tally) {
    tally.note(outside(8, 3, 1, 0));
    tally.note(outside(8, 3, 1, 65));
    tally.note(outside(8, 3, 1, 65535));
    tally.note(outside(8, 3, 1, usize::MAX));
}

// Wheels with one value outside its range, and one with all four.
fn bad_wheels(rt: HostRuntime) -> io::Result<()> {
    let mut tally = Tally::default();
    bad_slots(&mut tally);
    bad_words(&mut tally);
    bad_header(&mut tally);
    bad_period(&mut tally);
    tally.note(outside(0, 1, 1, 0));
    print!(rt; "outside the ranges: ")?;
    result(rt, tally, "wheels")
}

// Every second slot, and all slots, on one wheel.
fn two_sets(w: Wheel) -> bool {
    right(w, u64::MAX / 3) && right(w, u64::MAX)
}

// Each value from 0 to 70 in each place of the wheel in turn.
fn values(rt: HostRuntime) -> io::Result<()> {
    let mut tally = Tally::default();
    for v in 0_u16..=70 {
        tally.note(two_sets(wheel(v as usize, 3, 1, 3)));
        tally.note(two_sets(wheel(8, v, 1, 3)));
        tally.note(two_sets(wheel(8, 7, v, 3)));
        tally.note(two_sets(wheel(64, 3, 1, v as usize)));
    }
    print!(rt; "values from 0 to 70: ")?;
    result(rt, tally, "wheels")
}

// All sets of the wheels with 1 to 10 slots, with slots at N and beyond: the measures pass these
// over. Each set has slot N besides, and slot 63; and its complement has every slot from N on.
fn all_beyond(rt: HostRuntime) -> io::Result<()> {
    let mut tally = Tally::default();
    for n in 1..=10 {
        let w = wheel(n, 3, 1, 3);
        for x in 0..1 << n {
            tally.note(right(w, x | 1 << n));
            tally.note(right(w, x | 1 << 63));
            tally.note(right(w, !x));
        }
    }
    print!(rt; "slots at N and beyond: ")?;
    result(rt, tally, "sets")
}

// The two mistakes on document 01's examples, {7,0,1} and {3,4}, and on all sets.
fn mistakes(rt: HostRuntime) -> io::Result<()> {
    let w = wheel(8, 3, 1, 3);
    let right = words(w, 131);
    let wrong = plain(w).words_cut_at_wrap(131);
    println!(rt; "{{7,0,1}} delivers {right}; with a header at slot 0 {wrong}")?;
    let gap = measure::largest_gap(w, 24);
    let short = apart::largest_gap_before_wrap(8, 24);
    println!(rt; "{{3,4}} has largest gap {gap}; without the gap over the wrap {short}")
}

// P2 to P5 of document 01, the words and the gaps. They are proved of the rules; here the built
// library answers.
fn examples() -> Tally {
    let w = wheel(8, 3, 1, 3);
    let mut tally = Tally::default();
    tally.note(words(w, 7) == 8);
    tally.note(words(w, 15) == 10);
    tally.note(words(w, 131) == 8);
    tally.note(words(w, 21) == 6);
    tally.note(words(w, 255) == 21);
    tally.note(words(wheel(1, 3, 1, 3), 1) == 2);
    tally.note(measure::largest_gap(w, 8) == 8);
    tally.note(measure::largest_gap(w, 17) == 4);
    tally.note(measure::largest_gap(w, 129) == 7);
    tally
}

fn main(rt: HostRuntime) -> io::Result<()> {
    all_wheels(rt, 3, 1, 3, right)?;
    all_wheels(rt, 2, 0, 1, right)?;
    all_wheels(rt, 4, 3, 1, right)?;
    all_wheels(rt, 64, 5, 64, right)?;
    all_wheels(rt, 5, 2, 2, right)?;
    all_wheels(rt, 3, 1, 20, right)?;
    edges(rt)?;
    bad_wheels(rt)?;
    values(rt)?;
    all_beyond(rt)?;
    print!(rt; "P2 to P5: ")?;
    result(rt, examples(), "examples")?;
    mistakes(rt)?;
    print!(rt; "a header at slot 0, ")?;
    all_wheels(rt, 3, 1, 3, has_header_at_wrap)?;
    print!(rt; "no gap over the wrap, ")?;
    all_wheels(rt, 3, 1, 3, has_no_gap_over_wrap)
}
