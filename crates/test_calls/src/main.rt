// Random sequences of calls at several wheels, channel counts and flow counts. Each call is made by the
// library and by the model, each on bytes of its own: the answers and every byte of the two rooms must
// be the same, past the end of table and list too. With each goes a damaged call: a byte of
// table or list has a random value, or the lengths or the wheel are others. And with each eighth goes
// a bare selection among random free slots. The sequences are fixed: what is checked is how many calls
// there were, by the numbers in `small` and `large`, that nothing differs, and that each number of
// opening and closing that needs no damage was given.
#![tactic(auto)]

ghost use Rattle.std.specs.Prelude.{◌^◌, ◌<◌};

use apart::{No, Wheel};
use model::{Asked, Call, Demand, Path, Reply};
use std::io;
use through::Malformed;
use trial::{Scene, Tally};

// ---- chance

// A number below 2 ^ 32 of a fixed sequence, from which others are drawn.
#[derive(Clone, Copy)]
struct Seed(u64);

const SPAN: u64 = 1 << 32;

impl Seed {
    // The next of the sequence.
    fn next(self) -> Seed
        ensures { result.0 < 2 ^ 32 }
    {
        Seed(((self.0 % SPAN) * 1664525 + 1013904223) % SPAN)
    }

    // The k-th number drawn, below 2 ^ 16 and below `end`; 0 if there is none.
    fn draw(self, k: u64, end: u64) -> u64
        ensures small { result < 2 ^ 16 }
        ensures below { 0 < end → result < end }
    {
        if end == 0 {
            return 0;
        }
        let x = Seed(self.0.wrapping_add((k % 256) * 40503)).next();
        let y = Seed(x.0 ^ (x.0 / 32768)).next();
        (y.0 / 65536) % end
    }

    // Once in so many times.
    fn rarely(self, k: u64, times: u64) -> bool {
        self.draw(k, times) == 0
    }
}

// ---- what is asked

// The step of a path: odd, so that no channel is met twice, and rarely even.
fn some_step(seed: Seed) -> u64 {
    if seed.rarely(2, 10) {
        return 2;
    }
    2 * seed.draw(3, 8) + 1
}

// How many channels a path goes round: rarely one that is not there.
fn some_round(seed: Seed, channels: u64) -> u64 {
    if seed.rarely(4, 12) {
        return channels.wrapping_add(1);
    }
    channels
}

// The channel a step further, round so many.
fn further(channel: u64, step: u64, round: u64) -> u64 {
    if round == 0 {
        return 0;
    }
    channel.wrapping_add(step) % round
}

// A path length, rarely one that is too small or too large.
fn some_length(seed: Seed, channels: u64) -> u64 {
    if seed.rarely(5, 12) {
        return seed.draw(6, 19);
    }
    seed.draw(7, channels.min(16)) + 1
}

// A path.
fn some_path(seed: Seed, channels: u64) -> Path {
    let step = some_step(seed);
    let round = some_round(seed, channels);
    let mut at = seed.draw(1, channels);
    let mut path: [u16; 16] = [0; 16];
    for channel in path.iter_mut() {
        *channel = (at % 65536) as u16;
        at = further(at, step, round);
    }
    Path {
        channels: path,
        len: some_length(seed, channels),
    }
}

// A flow, rarely one that is not there.
fn some_flow(seed: Seed, flows: u64) -> u64 {
    if seed.rarely(8, 12) {
        return seed.draw(9, flows.wrapping_add(2));
    }
    seed.draw(10, flows) + 1
}

// A number of words, rarely more than the wheel has.
fn some_words(seed: Seed, wheel: Wheel) -> u64 {
    let all = wheel.words(wheel.all());
    if seed.rarely(11, 10) {
        return seed.draw(12, all.wrapping_add(3));
    }
    seed.draw(13, all / 8 + 3)
}

// A deadline, rarely not above the path's length.
fn some_deadline(seed: Seed, n: u64, len: u64) -> u64 {
    if seed.rarely(14, 12) {
        return seed.draw(15, len.wrapping_add(1));
    }
    len.wrapping_add(seed.draw(16, n.wrapping_add(3)))
}

// What to ask: of wheel and lengths, the same.
fn some_asked(seed: Seed, asked: &Asked) -> Asked {
    let path = some_path(seed, (asked.table / model::ROW) as u64);
    let mut some = *asked;
    some.flow = some_flow(seed, (asked.list / model::ROW) as u64);
    some.path = path;
    some.demand = Demand {
        words: some_words(seed, asked.wheel),
        deadline: some_deadline(seed, asked.wheel.n, path.len),
    };
    some
}

// Some call.
fn some_call(seed: Seed) -> Call {
    match seed.draw(17, 16) {
        0..=9 => Call::Open,
        10..=13 => Call::Close,
        14 => Call::Report,
        _ => Call::Agree,
    }
}

// ---- damage

// A byte's new value: any, or a small one, as flow numbers and most of a record's are.
fn some_value(seed: Seed) -> u8 {
    if seed.rarely(20, 2) {
        return seed.draw(21, 256) as u8;
    }
    seed.draw(22, 18) as u8
}

// A byte of the table or of the list changed.
fn struck(seed: Seed, scene: &Scene) -> Scene {
    let mut damaged = *scene;
    let value = some_value(seed);
    if seed.rarely(23, 2) {
        let at = seed.draw(24, scene.asked.table as u64) as usize;
        damaged.rooms.table[at % model::ROOM] = value;
    } else {
        let at = seed.draw(25, scene.asked.list as u64) as usize;
        damaged.rooms.list[at % model::ROOM] = value;
    }
    damaged
}

// A length: any, or of full rows.
fn some_size(seed: Seed) -> usize {
    if seed.rarely(27, 2) {
        return seed.draw(28, model::ROOM as u64 + 1) as usize;
    }
    model::ROW * seed.draw(29, 67) as usize
}

// Another table length, another list length, or another N.
fn other(seed: Seed, scene: &Scene) -> Scene {
    let mut other = *scene;
    match seed.draw(30, 3) {
        0 => other.asked.table = some_size(seed),
        1 => other.asked.list = some_size(seed),
        _ => other.asked.wheel.n = seed.draw(31, 70),
    }
    other
}

// A damaged call.
fn damaged(tally: &mut Tally, scene: &Scene, seed: Seed) {
    let call = some_call(seed);
    let mut asking = *scene;
    asking.asked = some_asked(seed, &scene.asked);
    if seed.rarely(32, 4) {
        tally.compared(call, &other(seed, &asking));
    } else {
        tally.compared(call, &struck(seed, &asking));
    }
}

// ---- the sequences

// Random free slots, rarely with some that are not there.
fn some_free(seed: Seed, n: u64) -> u64 {
    let low = seed.draw(40, 65536) | (seed.draw(41, 65536) << 16);
    let high = (seed.draw(42, 65536) << 32) | (seed.draw(43, 65536) << 48);
    let any = low | high;
    if seed.rarely(44, 8) {
        return any;
    }
    apart::cut(any, n)
}

// Bare selection among random free slots.
fn selected(tally: &mut Tally, asked: &Asked, seed: Seed) {
    let wheel = asked.wheel;
    let selection = apart::Asked {
        wheel,
        free: some_free(seed, wheel.n),
        words: asked.demand.words,
        limit: seed.draw(45, wheel.n.wrapping_add(2)),
    };
    tally.count(through::select(selection) == Ok(model::select(selection)));
}

// The answers that were given to a sequence's calls: whether a yes, and the numbers of the noes, as a
// set.
#[derive(Clone, Copy, Default)]
struct Given {
    yes: bool,
    noes: u64,
}

impl Given {
    // With an answer.
    fn add(&mut self, reply: Result<Reply, Malformed>) {
        match reply {
            Ok(Ok(_)) => self.yes = true,
            Ok(Err(no)) => self.noes |= 1 << no as u64 % 64,
            Err(Malformed) => {}
        }
    }

    // Whether this no was given.
    fn has(self, no: No) -> bool {
        apart::chosen(self.noes, no as u64)
    }
}

// What was counted of a sequence: its calls, those that were damaged, and bare selections.
#[derive(Clone, Copy, Default)]
struct Counts {
    calls: Tally,
    damaged: Tally,
    selections: Tally,
}

// A sequence of calls: each is watched on copies, with what goes with it, and then made.
fn turns(scene: &mut Scene, calls: u64, given: &mut Given) -> Counts {
    let mut counts = Counts::default();
    let asked = scene.asked;
    let sizes = (asked.table as u64).wrapping_add(asked.list as u64);
    let mut seed = Seed(asked.wheel.n.wrapping_add(sizes));
    for i in 0..calls {
        seed = seed.next();
        let call = some_call(seed);
        scene.asked = some_asked(seed, &asked);
        counts.calls.compared(call, scene);
        damaged(&mut counts.damaged, scene, seed.next());
        if i % 8 == 0 {
            selected(&mut counts.selections, &scene.asked, seed);
        }
        given.add(scene.make(call));
    }
    counts
}

// ---- what is printed

// What stands in the rooms past the ends of table and list.
const FILLING: u8 = 165;

// Runs a sequence from an empty table, and prints its line. Past the ends of table and list the rooms
// are filled, so that it shows where one writes there.
fn run(
    rt: HostRuntime,
    given: &mut Given,
    wheel: Wheel,
    channels: u8,
    flows: u8,
    calls: u64,
) -> io::Result<()> {
    let table = usize::from(channels) * model::ROW;
    let list = usize::from(flows) * model::ROW;
    let mut scene = Scene::empty(wheel);
    scene.asked.table = table;
    scene.asked.list = list;
    scene.rooms.table[table.min(model::ROOM)..].fill(FILLING);
    scene.rooms.list[list.min(model::ROOM)..].fill(FILLING);
    let counts = turns(&mut scene, calls, given);
    print!(rt; "{wheel}, channels {channels}, flows {flows}")?;
    print!(rt;
        ": calls {} differ {}",
        counts.calls.calls, counts.calls.differ
    )?;
    print!(rt;
        ", damaged {} differ {}",
        counts.damaged.calls, counts.damaged.differ
    )?;
    println!(rt;
        ", selections {} differ {}",
        counts.selections.calls, counts.selections.differ
    )
}

// Prints the numbers that were given, 0 for a yes.
fn show_given(rt: HostRuntime, given: Given) -> io::Result<()> {
    print!(rt; "numbers given:")?;
    if given.yes {
        print!(rt; " 0")?;
    }
    for no in No::ALL {
        if given.has(no) {
            print!(rt; " {}", no as u64)?;
        }
    }
    println!(rt; "")
}

// A wheel.
fn wheel(n: u64, s: u64, h: u64, p: u64) -> Wheel {
    Wheel { n, s, h, p }
}

// Wheels of up to 8 slots.
fn small(rt: HostRuntime, given: &mut Given) -> io::Result<()> {
    run(rt, given, wheel(1, 3, 1, 3), 1, 1, 600)?;
    run(rt, given, wheel(5, 3, 1, 3), 4, 8, 1200)?;
    run(rt, given, wheel(5, 2, 0, 1), 64, 64, 1200)?;
    run(rt, given, wheel(8, 3, 1, 3), 1, 8, 1200)?;
    run(rt, given, wheel(8, 3, 1, 3), 16, 16, 2000)?;
    run(rt, given, wheel(8, 4, 3, 1), 4, 1, 1200)
}

// Larger ones.
fn large(rt: HostRuntime, given: &mut Given) -> io::Result<()> {
    run(rt, given, wheel(16, 3, 1, 3), 16, 8, 1200)?;
    run(rt, given, wheel(16, 5, 2, 64), 64, 64, 1200)?;
    run(rt, given, wheel(64, 3, 1, 3), 64, 64, 1000)?;
    run(rt, given, wheel(64, 64, 63, 2), 16, 16, 1000)?;
    run(rt, given, wheel(64, 3, 1, 20), 4, 16, 1000)
}

fn main(rt: HostRuntime) -> io::Result<()> {
    let mut given = Given::default();
    small(rt, &mut given)?;
    large(rt, &mut given)?;
    show_given(rt, given)
}
