// Runs the searches written apart on what document 01 says of bare selection, so that they can be
// trusted where the library is held against them. A path of one channel: the largest allowed gap is
// one less than the deadline.
#![tactic(auto)]

use apart::{Asked, Grant, No, Wheel};
use std::io;

// How many searches were run, how many granted a set, how many were refused by 13 and by 14, and
// the sums of the granted sets, as numbers, and of their words.
#[derive(Clone, Copy, Default)]
struct Sums {
    searches: u64,
    granted: u64,
    too_much: u64,
    too_far: u64,
    slots: u64,
    words: u64,
}

impl Sums {
    // One search more, and what it found; nothing where the two searches differ.
    fn note(&mut self, found: Option<Result<Grant, No>>) {
        self.searches = self.searches.wrapping_add(1);
        match found {
            Some(Ok(set)) => {
                self.granted = self.granted.wrapping_add(1);
                self.slots = self.slots.wrapping_add(set.slots);
                self.words = self.words.wrapping_add(set.words);
            }
            Some(Err(No::TooMuch)) => self.too_much = self.too_much.wrapping_add(1),
            Some(Err(No::TooFar)) => self.too_far = self.too_far.wrapping_add(1),
            _ => {}
        }
    }
}

// Prints a line with what was found: a set as a number, how many slots, and words; or a no.
fn show(rt: HostRuntime, name: &str, found: Result<Grant, No>) -> io::Result<()> {
    match found {
        Ok(set) => println!(rt;
            "{name} set {} slots {} words {}",
            set.slots, set.count, set.words
        ),
        Err(no) => println!(rt; "{name} refused {}", no as u64),
    }
}

// A wheel of n slots, and for the rest the default.
fn wheel(n: u64) -> Wheel {
    Wheel {
        n,
        s: 3,
        h: 1,
        p: 3,
    }
}

// A search on a wheel of n slots.
fn search_on(n: u64, free: u64, words: u64, limit: u64) -> Result<Grant, No> {
    let asked = Asked {
        wheel: wheel(n),
        free,
        words,
        limit,
    };
    asked.search()
}

// A search on the default wheel.
fn search(free: u64, words: u64, limit: u64) -> Result<Grant, No> {
    search_on(8, free, words, limit)
}

// P6 to P9 of document 01.
fn examples(rt: HostRuntime) -> io::Result<()> {
    show(rt, "P6", search(117, 8, 8))?;
    show(rt, "P7", search(25, 3, 8))?;
    show(rt, "P7 with D 4", search(25, 3, 3))?;
    show(rt, "P8", search(153, 5, 8))?;
    show(rt, "P9 with D 5", search(34, 4, 4))?;
    show(rt, "P9 with D 4", search(34, 4, 3))
}

// P10, and the searches that document 01 wants run.
fn more_examples(rt: HostRuntime) -> io::Result<()> {
    show(rt, "P10", search(255, 21, 8))?;
    show(rt, "P10 with W 22", search(255, 22, 8))?;
    show(rt, "L 1 and all free", search(255, 3, 1))?;
    show(rt, "no slot free", search(0, 1, 8))
}

// Refusals, each with all later ones besides.
fn refusals(rt: HostRuntime) -> io::Result<()> {
    show(rt, "N 0", search_on(0, 256, 0, 0))?;
    show(rt, "slot 8 free", search(256, 0, 0))?;
    show(rt, "W 0", search(0, 0, 0))?;
    show(rt, "L 0", search(0, 1, 0))?;
    show(rt, "N 17", search_on(17, 255, 1, 1))
}

// What both searches found; nothing where they differ.
fn searched(asked: Asked) -> Option<Result<Grant, No>> {
    let found = asked.search();
    if found == exact::select(asked) {
        Some(found)
    } else {
        None
    }
}

// Every set of free slots of a wheel of at most 16, with every number of words up to 18, which six
// slots do not deliver, and every limit up to one above N.
fn all_searches(n: u64) -> Sums {
    let mut sums = Sums::default();
    if 16 < n {
        return sums;
    }
    for free in 0..1 << n {
        for words in 1..=18 {
            for limit in 1..=n + 1 {
                sums.note(searched(Asked {
                    wheel: wheel(n),
                    free,
                    words,
                    limit,
                }));
            }
        }
    }
    sums
}

// Prints the sums over all searches of a wheel.
fn show_sums(rt: HostRuntime, n: u64) -> io::Result<()> {
    let t = all_searches(n);
    print!(rt; "N {n}: {} searches, {} granted, ", t.searches, t.granted)?;
    print!(rt; "{} refused 13, {} refused 14, ", t.too_much, t.too_far)?;
    println!(rt; "sets sum {}, words sum {}", t.slots, t.words)
}

fn main(rt: HostRuntime) -> io::Result<()> {
    examples(rt)?;
    more_examples(rt)?;
    refusals(rt)?;
    for n in 1..=6 {
        show_sums(rt, n)?;
    }
    Ok(())
}
