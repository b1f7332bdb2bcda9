// Runs bare selection on vectors made outside this project and compares. The file that the argument
// names has a line for each, `N S H P free W L -> no slots count words gap`; sets are decimals in
// which bit s is slot s. A line of another form counts as one that differs.
#![tactic(auto)]

use apart::Grant;
use rules::{Refusal, Wheel, Words};
use std::num::ParseIntError;
use std::str::{FromStr, Split};
use std::{fs, io};

// What a selection answers: a grant, or a refusal's number.
type Answer = Result<Grant, u64>;

// A line: what is asked, what the answer must be, and the largest gap of the slots granted.
#[derive(Clone, Copy)]
struct Vector {
    wheel: Wheel,
    free: u64,
    words: Words,
    limit: u16,
    answer: Answer,
    gap: usize,
}

// What stands in a line in place of a grant.
const NOTHING: Grant = Grant {
    slots: 0,
    count: 0,
    words: 0,
};

// How many vectors there were, how many differ, and how many are large: at N 64 with 60 or more free
// slots and 20 to 40 granted.
#[derive(Clone, Copy, Default)]
struct Tally {
    vectors: u64,
    differ: u64,
    large: u64,
}

// The number in the next field: digits, and no sign before them.
fn next<T: FromStr<Err = ParseIntError>>(fields: &mut Split<char>) -> Option<T> {
    let field = fields.next()?;
    if field.starts_with('+') {
        return None;
    }
    field.parse().ok()
}

// The vector that a line spells. The arrow's head may be left out.
fn read(line: &[u8]) -> Option<Vector> {
    let mut fields = str::from_utf8(line).ok()?.split(' ');
    let wheel = Wheel {
        n: next(&mut fields)?,
        s: Words(next(&mut fields)?),
        h: Words(next(&mut fields)?),
        p: next(&mut fields)?,
    };
    let free = next(&mut fields)?;
    let words = Words(next(&mut fields)?);
    let limit = next(&mut fields)?;
    let arrow = fields.next()?;
    if arrow != "->" && arrow != "-" {
        return None;
    }
    let no = next(&mut fields)?;
    let set = Grant {
        slots: next(&mut fields)?,
        count: next(&mut fields)?,
        words: next(&mut fields)?,
    };
    let gap = next(&mut fields)?;
    if fields.next().is_some() {
        return None;
    }
    let answer = match no {
        0 => Ok(set),
        _ if set == NOTHING => Err(no),
        _ => return None,
    };
    Some(Vector {
        wheel,
        free,
        words,
        limit,
        answer,
        gap,
    })
}

// What selection answers, in the form of a line.
fn plain(answer: Result<rules::Grant, Refusal>) -> Answer {
    match answer {
        Ok(set) => Ok(Grant {
            slots: set.slots,
            count: set.count as u64,
            words: u64::from(set.words.0),
        }),
        Err(no) => Err(u64::from(numbers::number(no))),
    }
}

// Whether selection answers as the vector says.
fn is_met(v: Vector) -> bool {
    let answer = plain(select::select(v.wheel, v.free, v.words, v.limit));
    let slots = match answer {
        Ok(set) => set.slots,
        Err(_) => 0,
    };
    answer == v.answer && measure::largest_gap(v.wheel, slots) == v.gap
}

// Whether the vector's selection is a large one, and is granted.
fn is_large(v: Vector) -> bool {
    match v.answer {
        Ok(set) => {
            v.wheel.n == 64 && 60 <= v.free.count_ones() && 20 <= set.count && set.count <= 40
        }
        Err(_) => false,
    }
}

impl Tally {
    // One line more.
    fn note(&mut self, line: &[u8]) {
        self.vectors = self.vectors.wrapping_add(1);
        match read(line) {
            Some(v) if is_met(v) => {
                if is_large(v) {
                    self.large = self.large.wrapping_add(1);
                }
            }
            _ => self.differ = self.differ.wrapping_add(1),
        }
    }
}

// All lines of a text, which are no more than its bytes.
fn vectors(text: &[u8]) -> Tally {
    let mut tally = Tally::default();
    let mut rest = text;
    for _ in 0..text.len() {
        let Some((line, others)) = reading::next_line(rest) else {
            break;
        };
        tally.note(line);
        rest = others;
    }
    tally
}

// Prints what was counted.
fn show(rt: HostRuntime, t: Tally) -> io::Result<()> {
    print!(rt; "{} vectors, {} differ; ", t.vectors, t.differ)?;
    println!(rt;
        "{} at N 64 with 60 or more free slots and 20 to 40 granted",
        t.large
    )
}

// The vectors of one file, of less than 65,536 bytes.
fn file(rt: HostRuntime, name: &str) -> io::Result<()> {
    let mut from = fs::open(&rt, name)?;
    let mut room = [0u8; 65536];
    let n = input::read_full(&mut from, &mut room)?;
    print!(rt; "{name}: ")?;
    if 65536 <= n {
        return println!(rt; "too long");
    }
    show(rt, vectors(&room[..n]))
}

fn main(rt: HostRuntime) -> io::Result<()> {
    let mut room = [0u8; 4096];
    match input::argument(&rt, 1, &mut room)? {
        Some(name) => file(rt, name),
        None => Err(io::Error::from(io::ErrorKind::NotFound)),
    }
}
