// Bare selection at every N, written apart: exact, and quick enough for wheels of 64 slots. The wheel
// is cut open at each start in turn, and choices of 1, 2, 3, .. slots are built from the end, run by
// run. Each entry of the table holds the best choice itself and not its worth alone, so that nothing
// is traced back. It is held against the search through all sets in test_apart.
//
// What is asked of a wheel that is cut open has positions for its free slots: position i is i slots
// after the start. Position 0 is taken and the last one is not.
#![tactic(auto)]

ghost use Rattle.std.specs.Prelude.{◌≡◌, true, ◌≤◌, ◌<◌};

use apart::{Asked, Grant, No, Wheel};

// A choice of positions: its words, and its image, in which position i is bit 63 - i. Every choice
// delivers words: no words stand for no choice. An Option in each entry takes half as much room again,
// and is slower to fill and to compare (docs/DESIGN-PASS.md).
#[derive(Clone, Copy)]
struct Choice {
    words: u64,
    image: u64,
}

// No choice.
const NONE: Choice = Choice { words: 0, image: 0 };

// The choice with more words, or with the larger image where these are the same: of two choices of as
// many positions, the larger image has the smaller position where they first differ.
fn better_of(a: Choice, b: Choice) -> Choice {
    if a.words < b.words || a.words == b.words && a.image < b.image {
        b
    } else {
        a
    }
}

// ---- the table

// The best choices of j slots: behind[j][e] of those behind a run that ends at e, j from 1 to 63; and,
// for the j at hand, begun[i] of those that begin at i.
#[derive(Drop)]
struct Table {
    behind: [[Choice; 64]; 64],
    begun: [Choice; 64],
}

impl Table {
    // A table of nothing.
    fn empty() -> Table {
        Table {
            behind: [[NONE; 64]; 64],
            begun: [NONE; 64],
        }
    }
}

// ---- one run, and what follows it

// Position i alone, as an image.
fn image_of(i: u64) -> u64 {
    if i < 64 { 1 << (63 - i) } else { 0 }
}

// What slot q of a run delivers, counted from 0 (rule 2).
fn slot_words(w: Wheel, q: u64) -> u64 {
    if w.p == 0 {
        return 0;
    }
    if q % w.p == 0 {
        w.s.saturating_sub(w.h)
    } else {
        w.s
    }
}

// A run from position i with slot q behind its first q.
fn longer(w: Wheel, run: Choice, i: u64, q: u64) -> Choice {
    Choice {
        words: run.words.wrapping_add(slot_words(w, q)),
        image: run.image | image_of(i.wrapping_add(q)),
    }
}

// Whether position i can be taken: it is free, and not the last of the wheel.
fn opens(asked: Asked, i: u64) -> bool
    ensures { result ≡ true → i < 64 }
{
    i < 64 && i + 1 < asked.wheel.n && apart::chosen(asked.free, i)
}

// A run that ends at e, with the best choice of `left` slots behind it. With none left, the gap over
// the wrap is looked at, from e to position N.
fn joined(table: &Table, asked: Asked, run: Choice, e: u64, left: u64) -> Choice
    requires { (e < 64) × (left < 64) }
{
    if left == 0 {
        return if asked.wheel.n <= e.wrapping_add(asked.limit) {
            run
        } else {
            NONE
        };
    }
    let rest = table.behind[left as usize][e as usize];
    if rest.words == 0 {
        return NONE;
    }
    Choice {
        words: run.words.wrapping_add(rest.words),
        image: run.image | rest.image,
    }
}

// The best choice of j slots that begins with a run from position i: a run of each length, and the
// best behind it.
fn from(table: &Table, asked: Asked, i: u64, j: u64) -> Choice
    requires { j ≤ 64 }
{
    let mut best = NONE;
    let mut run = NONE;
    for q in 0..j {
        let e = i.wrapping_add(q);
        if !opens(asked, e) {
            return best;
        }
        run = longer(asked.wheel, run, i, q);
        best = better_of(joined(table, asked, run, e, j - q - 1), best);
    }
    best
}

// The best choice that begins behind e, a position after it left out, with no gap above the limit.
fn next_from(table: &Table, asked: Asked, e: u64) -> Choice
    requires { asked.wheel.n ≤ 64 }
{
    let n = asked.wheel.n;
    let mut best = NONE;
    for gap in 2..=asked.limit.min(n) {
        let i = e.wrapping_add(gap);
        if n <= i {
            return best;
        }
        best = better_of(table.begun[i as usize], best);
    }
    best
}

// ---- all choices of j slots

// The choices of j slots that begin at each position.
fn begin_all(table: &mut Table, asked: Asked, j: u64)
    requires { (asked.wheel.n ≤ 64) × (j ≤ 64) }
{
    for i in 0..asked.wheel.n {
        table.begun[i as usize] = from(table, asked, i, j);
    }
}

// The choices of j slots behind each position that can be taken.
fn follow_all(table: &mut Table, asked: Asked, j: u64)
    requires { (asked.wheel.n ≤ 64) × (j < 64) }
{
    for e in 0..asked.wheel.n {
        if apart::chosen(asked.free, e) {
            table.behind[j as usize][e as usize] = next_from(table, asked, e);
        }
    }
}

// The fewest slots, at most `most`, that deliver the words from this start, with the best choice of
// so many.
fn fewest(table: &mut Table, asked: Asked, most: u64) -> Option<(u64, Choice)>
    requires { (asked.wheel.n ≤ 64) × (most < 64) }
{
    for j in 1..=most {
        begin_all(table, asked, j);
        let got = table.begun[0];
        if asked.words <= got.words {
            return Some((j, got));
        }
        follow_all(table, asked, j);
    }
    None
}

// ---- all starts

// The set x seen from slot a: slot (a + i) mod N is position i.
fn seen_from(n: u64, x: u64, a: u64) -> u64 {
    if a == 0 || 64 < n || n <= a {
        return x;
    }
    apart::cut((x >> a) | (x << (n - a)), n)
}

// The slots of an image, seen from slot a.
fn slots_of(n: u64, a: u64, image: u64) -> u64 {
    let mut x = 0;
    for i in 0..n {
        let slot = a.wrapping_add(i) % n;
        if image & image_of(i) != 0 && slot < 64 {
            x |= 1 << slot;
        }
    }
    x
}

// The better of the best so far and what start a has, of at most `most` slots. A set with an earlier
// start was found there, so that of two that are equal the earlier stays.
fn with_start(table: &mut Table, asked: Asked, a: u64, best: Option<Grant>) -> Option<Grant>
    requires { asked.wheel.n ≤ 64 }
{
    let n = asked.wheel.n;
    if !apart::chosen(asked.free, a) {
        return best;
    }
    let seen = Asked {
        free: seen_from(n, asked.free, a),
        ..asked
    };
    let all_but_one = n.saturating_sub(1);
    let most = match best {
        Some(set) => set.count.min(all_but_one),
        None => all_but_one,
    };
    let Some((count, got)) = fewest(table, seen, most) else {
        return best;
    };
    if let Some(set) = best
        && count == set.count
        && got.words <= set.words
    {
        return best;
    }
    Some(Grant {
        slots: slots_of(n, a, got.image),
        count,
        words: got.words,
    })
}

// The best set that is not the full wheel.
fn over_starts(asked: Asked) -> Option<Grant>
    requires { asked.wheel.n ≤ 64 }
{
    let mut table = Table::empty();
    let mut best = None;
    for a in 0..asked.wheel.n {
        best = with_start(&mut table, asked, a, best);
    }
    best
}

// Bare selection. More slots deliver more words and have no larger gaps: so 13 and 14 are a matter of
// all free slots, and what is left then has a best set, the full wheel if no other meets the demand.
pub fn select(asked: Asked) -> Result<Grant, No> {
    if let Some(no) = asked.refusal() {
        return Err(no);
    }
    let all = asked.wheel.grant(asked.free);
    if all.words < asked.words {
        return Err(No::TooMuch);
    }
    if asked.limit < apart::largest_gap(asked.wheel.n, asked.free) {
        return Err(No::TooFar);
    }
    Ok(over_starts(asked).unwrap_or(all))
}
