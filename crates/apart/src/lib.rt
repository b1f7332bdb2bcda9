// The measures of a set and bare selection, counted apart: from document 01 alone, with none of the
// library's code and by other methods, so that tests can hold the two against each other. All
// numbers are plain, and bit i of a set is its slot i.
#![tactic(auto)]

ghost use Rattle.std.specs.Prelude.{◌≡◌, true, IfNone, ◌≤◌, ◌<◌};

use std::cmp::Reverse;
use std::fmt;

// A wheel: its slots, the words of a slot, the words of a header, and the header's period.
#[derive(Clone, Copy)]
pub struct Wheel {
    pub n: u64,
    pub s: u64,
    pub h: u64,
    pub p: u64,
}

impl fmt::Display for Wheel {
    fn fmt<W: fmt::Write>(&self, f: &mut fmt::Formatter<W>) -> fmt::Result {
        let n = self.n;
        let s = self.s;
        let h = self.h;
        let p = self.p;
        write!(f, "N {n} S {s} H {h} P {p}")
    }
}

// What bare selection is asked: on which wheel, which slots are free, how many words are wanted, and
// the largest gap that is allowed.
#[derive(Clone, Copy)]
pub struct Asked {
    pub wheel: Wheel,
    pub free: u64,
    pub words: u64,
    pub limit: u64,
}

// What bare selection grants: the slots, how many they are, and their words.
#[derive(Clone, Copy, PartialEq, Eq)]
pub struct Grant {
    pub slots: u64,
    pub count: u64,
    pub words: u64,
}

// Why a call is refused, each with the number that document 01 gives it: bare selection by 1 and by
// 11 to 15. The last is not of document 01, for a wheel that is too large to go through its sets.
#[derive(Clone, Copy, PartialEq, Eq)]
pub enum No {
    BadWheel = 1,
    BadTable = 2,
    BadList = 3,
    Disagree = 4,
    PathLength = 5,
    NoChannel = 6,
    ChannelTwice = 7,
    NoFlow = 8,
    AlreadyOpen = 9,
    NotOpen = 10,
    NoWords = 11,
    NoLimit = 12,
    TooMuch = 13,
    TooFar = 14,
    NoSuchSlot = 15,
    TooLarge = 99,
}

impl No {
    // All of document 01, by their numbers.
    pub const ALL: [No; 15] = [
        No::BadWheel,
        No::BadTable,
        No::BadList,
        No::Disagree,
        No::PathLength,
        No::NoChannel,
        No::ChannelTwice,
        No::NoFlow,
        No::AlreadyOpen,
        No::NotOpen,
        No::NoWords,
        No::NoLimit,
        No::TooMuch,
        No::TooFar,
        No::NoSuchSlot,
    ];

    // The one with this number in document 01.
    pub fn of_number(number: u64) -> Option<No> {
        No::ALL.into_iter().find(|no| *no as u64 == number)
    }
}

// The set x without its slots at n and beyond.
pub fn cut(x: u64, n: u64) -> u64 {
    if n == 0 {
        return 0;
    }
    if 64 <= n {
        return x;
    }
    let k = 64 - n;
    (x << k) >> k
}

// Whether slot i is in the set x.
pub fn chosen(x: u64, i: u64) -> bool {
    i < 64 && (x >> i) % 2 == 1
}

// The slot before slot i, round the wheel.
fn previous(n: u64, i: u64) -> u64 {
    if 0 < i { i - 1 } else { n.saturating_sub(1) }
}

// The slot after slot i, round the wheel.
fn next(n: u64, i: u64) -> u64 {
    if 64 <= i || i + 1 == n { 0 } else { i + 1 }
}

// How far slot i lies from the start of its run, walking back from it round the wheel. The full
// wheel has no start: there it is the slot's own number.
fn behind(n: u64, x: u64, i: u64) -> u64 {
    let mut at = previous(n, i);
    for back in 0..n {
        if !chosen(x, at) {
            return back;
        }
        at = previous(n, at);
    }
    i
}

// The largest gap of x (rule 3): one more than the longest stretch of slots that are not chosen, in
// the wheel written down twice; 0 for the empty set.
pub fn largest_gap(n: u64, x: u64) -> u64 {
    if 64 < n {
        return 0;
    }
    let mut longest = 0_u64;
    let mut stretch = 0;
    for i in 0..2 * n {
        stretch = if chosen(x, i % n) { 0 } else { stretch + 1 };
        longest = longest.max(stretch);
    }
    if longest == 2 * n { 0 } else { longest + 1 }
}

// The largest gap of x by the trainees' mistake: the gap over the wrap is not looked at.
pub fn largest_gap_before_wrap(n: u64, x: u64) -> u64 {
    if 64 < n {
        return 0;
    }
    let mut longest = 0;
    let mut last = None;
    for i in 0..n {
        if chosen(x, i) {
            longest = gap_since(last, i).max(longest);
            last = Some(i);
        }
    }
    longest
}

// The gap from the chosen slot seen last to slot i; 0 where none was seen.
fn gap_since(last: Option<u64>, i: u64) -> u64 {
    match last {
        Some(slot) => i.saturating_sub(slot),
        None => 0,
    }
}

// The smallest start of x (rule 6), by a scan downwards that keeps the last found; n if none.
pub fn smallest_start(n: u64, x: u64) -> u64 {
    let mut found = n;
    for i in (0..n).rev() {
        if chosen(x, i) && !chosen(x, previous(n, i)) {
            found = i;
        }
    }
    found
}

// The number of slots of x.
pub fn size(x: u64) -> u64 {
    u64::from(x.count_ones())
}

// The k-th entry, from 0, of the list of the distances of the slots of x from slot `from`, going
// round the wheel; n past the end of the list.
fn distance(n: u64, x: u64, from: u64, k: u64) -> u64 {
    let mut left = k;
    let mut slot = from;
    for d in 0..n {
        if chosen(x, slot) {
            if left == 0 {
                return d;
            }
            left -= 1;
        }
        slot = next(n, slot);
    }
    n
}

// Whether the list of the distances of a from slot `from` has the smaller entry where it first
// differs from that of b.
fn list_first(n: u64, a: u64, b: u64, from: u64) -> bool {
    for k in 0..n {
        let da = distance(n, a, from, k);
        let db = distance(n, b, from, k);
        if da != db {
            return da < db;
        }
    }
    false
}

impl Wheel {
    // Whether every value of the wheel lies in its range.
    pub fn fits(self) -> bool
        ensures { result ≡ true → self.n ≤ 64 }
    {
        1 <= self.n
            && self.n <= 64
            && 2 <= self.s
            && self.s <= 64
            && self.h < self.s
            && 1 <= self.p
            && self.p <= 64
    }

    // The set of all slots of the wheel.
    pub fn all(self) -> u64 {
        cut(u64::MAX, self.n)
    }

    // What slot i delivers: nothing if it is not chosen; else S words, less a header at the start of
    // its run and at every P-th slot after that.
    fn slot_words(self, x: u64, i: u64) -> u64
        ensures { result ≤ 64 }
    {
        if !chosen(x, i) || 64 < self.s || self.s < self.h || self.p == 0 {
            return 0;
        }
        if behind(self.n, x, i) % self.p == 0 {
            self.s - self.h
        } else {
            self.s
        }
    }

    // The words of the set x, slot by slot (rule 2).
    pub fn words(self, x: u64) -> u64 {
        if 64 < self.n {
            return 0;
        }
        let mut total = 0;
        for i in 0..self.n {
            total += self.slot_words(x, i);
        }
        total
    }

    // The words of x by the trainees' mistake: a run that goes over the wrap is cut there, and slot 0
    // pays a header. It is the wheel with one slot more, which is never chosen.
    pub fn words_cut_at_wrap(self, x: u64) -> u64 {
        if 63 < self.n {
            return 0;
        }
        let longer = Wheel {
            n: self.n + 1,
            ..self
        };
        longer.words(cut(x, self.n))
    }

    // Whether the set a is better than b (rule 6): fewest slots, then most words, then the smallest
    // start, then the distances from it one by one.
    pub fn better(self, a: u64, b: u64) -> bool {
        if size(a) != size(b) {
            return size(a) < size(b);
        }
        if self.words(a) != self.words(b) {
            return self.words(b) < self.words(a);
        }
        let from = smallest_start(self.n, a);
        if from != smallest_start(self.n, b) {
            return from < smallest_start(self.n, b);
        }
        list_first(self.n, a, b, from)
    }

    // The grant of the set x.
    pub fn grant(self, x: u64) -> Grant {
        Grant {
            slots: x,
            count: size(x),
            words: self.words(x),
        }
    }
}

impl Asked {
    // The refusal that is given before any set is looked at.
    pub fn refusal(self) -> Option<No>
        ensures { IfNone result (self.wheel.n ≤ 64) }
    {
        if !self.wheel.fits() {
            return Some(No::BadWheel);
        }
        if cut(self.free, self.wheel.n) != self.free {
            return Some(No::NoSuchSlot);
        }
        if self.words == 0 {
            return Some(No::NoWords);
        }
        if self.limit == 0 {
            return Some(No::NoLimit);
        }
        None
    }

    // Whether y names free slots only, and delivers the words asked for.
    fn delivers(self, y: u64) -> bool {
        y & self.free == y && self.words <= self.wheel.words(y)
    }

    // Whether some set of free slots delivers the words: a subset is no larger as a number, and all free
    // slots, which deliver the most, are asked first.
    fn some_delivers(self) -> bool {
        (0..=self.free).rev().any(|y| self.delivers(y))
    }

    // The better of the best set so far and y, if y meets what is asked.
    fn kept(self, best: Option<u64>, y: u64) -> Option<u64> {
        if !self.delivers(y) || self.limit < largest_gap(self.wheel.n, y) {
            return best;
        }
        match best {
            Some(set) if !self.wheel.better(y, set) => best,
            _ => Some(y),
        }
    }

    // The best set of free slots that meets what is asked.
    fn best(self) -> Option<u64> {
        let mut best = None;
        for y in (0..=self.free).rev() {
            best = self.kept(best, y);
        }
        best
    }

    // Bare selection by going through every set of free slots, for wheels of at most 16 slots.
    pub fn search(self) -> Result<Grant, No> {
        if let Some(no) = self.refusal() {
            return Err(no);
        }
        if 16 < self.wheel.n {
            return Err(No::TooLarge);
        }
        if !self.some_delivers() {
            return Err(No::TooMuch);
        }
        match self.best() {
            Some(set) => Ok(self.wheel.grant(set)),
            None => Err(No::TooFar),
        }
    }
}

// The same search from a list, in which each set of a wheel of at most ten slots is measured once:
// what is measured of the set x stands at x. It is quick enough for millions of searches.

// What decides between two sets, in this order (rule 6): the lesser is that of the better set.
#[derive(Clone, Copy, PartialEq, Eq, PartialOrd, Ord)]
struct Rank {
    size: u64,
    words: Reverse<u64>,
    start: u64,
    mirror: Reverse<u64>,
}

// A set, its words, its largest gap and its rank.
#[derive(Clone, Copy)]
struct Measured {
    slots: u64,
    words: u64,
    gap: u64,
    rank: Rank,
}

impl Measured {
    // Whether the set has free slots only.
    fn is_of(&self, free: u64) -> bool {
        self.slots & free == self.slots
    }
}

// What is measured of each set of a wheel.
#[derive(Drop)]
pub struct Listed {
    sets: [Measured; 1024],
}

// The set x read from its smallest start on, the first slot as the highest digit. Of two sets with
// the same size and start, the larger number has the smaller distance where the lists first differ.
fn mirror(n: u64, x: u64) -> u64 {
    let mut slot = smallest_start(n, x);
    let mut image = 0;
    for _ in 0..n {
        image = (image << 1) | u64::from(chosen(x, slot));
        slot = next(n, slot);
    }
    image
}

impl Wheel {
    // The rank of the set x.
    fn rank(self, x: u64) -> Rank {
        Rank {
            size: size(x),
            words: Reverse(self.words(x)),
            start: smallest_start(self.n, x),
            mirror: Reverse(mirror(self.n, x)),
        }
    }

    // What is measured of the set x.
    fn measured(self, x: u64) -> Measured {
        Measured {
            slots: x,
            words: self.words(x),
            gap: largest_gap(self.n, x),
            rank: self.rank(x),
        }
    }

    // Every set measured.
    pub fn listed(self) -> Listed {
        Listed {
            sets: std::array::from_fn(|x| self.measured(x as u64)),
        }
    }
}

impl Listed {
    // The most words that a set of free slots delivers.
    pub fn most_words(&self, free: u64) -> u64 {
        self.sets
            .iter()
            .filter(|set| set.is_of(free))
            .map(|set| set.words)
            .max()
            .unwrap_or(0)
    }

    // Whether some set of free slots delivers the words: a subset is no larger as a number, and all free
    // slots, which deliver the most, are asked first.
    fn some_delivers(&self, asked: Asked) -> bool
        requires { asked.free < 1024 }
    {
        self.sets[..=asked.free as usize]
            .iter()
            .rev()
            .any(|set| set.is_of(asked.free) && asked.words <= set.words)
    }

    // The best set of free slots that meets what is asked.
    fn best(&self, asked: Asked) -> Option<Measured>
        requires { asked.free < 1024 }
    {
        let mut best = None;
        for set in &self.sets[..=asked.free as usize] {
            if set.is_of(asked.free) {
                best = better_listed(asked, best, *set);
            }
        }
        best
    }

    // Bare selection by the list of the wheel that is asked of, of at most 10 slots.
    pub fn search(&self, asked: Asked) -> Result<Grant, No> {
        if let Some(no) = asked.refusal() {
            return Err(no);
        }
        if 10 < asked.wheel.n || 1024 <= asked.free {
            return Err(No::TooLarge);
        }
        if !self.some_delivers(asked) {
            return Err(No::TooMuch);
        }
        match self.best(asked) {
            Some(set) => Ok(Grant {
                slots: set.slots,
                count: size(set.slots),
                words: set.words,
            }),
            None => Err(No::TooFar),
        }
    }
}

// The better of the best set so far and another set of free slots, if it meets what is asked.
fn better_listed(asked: Asked, best: Option<Measured>, set: Measured) -> Option<Measured> {
    if set.words < asked.words || asked.limit < set.gap {
        return best;
    }
    match best {
        Some(b) if b.rank <= set.rank => best,
        _ => Some(set),
    }
}
