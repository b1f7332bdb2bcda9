// Every refusal by itself, and every two of them at once. Each condition of document 01 is brought
// about in several ways, by itself and together with each way of every later condition of the call's
// order that can hold beside it: the first of the two numbers must be given, and every byte of table
// and list stay. The orders are written down here. A line for each number of an order counts the
// calls that must give it; how many these are follows from the ways below.
#![tactic(auto)]

use apart::{Grant, No, Wheel};
use model::{Call, Yes};
use std::io;
use trial::{Scene, Tally, WHEEL};

// ---- the orders

// The order of a call's refusals.
fn order(call: Call) -> &'static [No] {
    match call {
        Call::Open => &[
            No::BadWheel,
            No::BadTable,
            No::BadList,
            No::Disagree,
            No::PathLength,
            No::NoChannel,
            No::ChannelTwice,
            No::NoFlow,
            No::AlreadyOpen,
            No::NoWords,
            No::NoLimit,
            No::TooMuch,
            No::TooFar,
        ],
        Call::Close => &[
            No::BadWheel,
            No::BadTable,
            No::BadList,
            No::Disagree,
            No::NoFlow,
            No::NotOpen,
        ],
        Call::Report | Call::Agree => &[No::BadWheel, No::BadTable, No::BadList, No::Disagree],
    }
}

// Whether two refusals, the first before the second, cannot hold together: a flow that is not there
// is neither open nor closed; no words are delivered by the empty set, which has no gap; and 14 says
// that some set delivers, 13 that none does.
fn exclude(no: No, later: No) -> bool {
    matches!(
        (no, later),
        (No::NoFlow, No::AlreadyOpen | No::NotOpen)
            | (No::NoWords, No::TooMuch | No::TooFar)
            | (No::TooMuch, No::TooFar)
    )
}

// ---- the conditions, each in several ways

// A change of what is asked, or of a byte.
#[derive(Clone, Copy)]
enum Change {
    Wheel(Wheel),
    Table(usize),
    List(usize),
    TableByte(usize, u8),
    ListByte(usize, u8),
    Length(u64),
    Channel(usize, u16),
    // The path's channel at this position once more as its third.
    Again(usize),
    Flow(u64),
    // The flow after the list's last.
    NextFlow,
    Words(u64),
    Deadline(u64),
    // A deadline of the path's length.
    LengthOnly,
    // A deadline that allows a gap of this, or the deadline that there is, if that allows less.
    Gap(u64),
}

// The ways in which a refusal's condition is brought about.
fn ways(no: No) -> &'static [Change] {
    match no {
        // A value outside its range.
        No::BadWheel => &[
            Change::Wheel(Wheel { n: 0, ..WHEEL }),
            Change::Wheel(Wheel { n: 65, ..WHEEL }),
            Change::Wheel(Wheel {
                s: 1,
                h: 0,
                ..WHEEL
            }),
            Change::Wheel(Wheel { s: 65, ..WHEEL }),
            Change::Wheel(Wheel { h: 3, ..WHEEL }),
            Change::Wheel(Wheel { p: 0, ..WHEEL }),
            Change::Wheel(Wheel { p: 65, ..WHEEL }),
        ],
        // A length that is 0, no multiple of 64, or of 65 rows.
        No::BadTable => &[
            Change::Table(0),
            Change::Table(63),
            Change::Table(65),
            Change::Table(511),
            Change::Table(4160),
        ],
        No::BadList => &[
            Change::List(0),
            Change::List(63),
            Change::List(65),
            Change::List(511),
            Change::List(4160),
        ],
        // A free cell with a flow's number, a cell from N on that is not 0, a claimed cell that is; a
        // closed record that has slots, and one more word than flow 2's slots deliver.
        No::Disagree => &[
            Change::TableByte(5, 1),
            Change::TableByte(40, 200),
            Change::TableByte(0, 0),
            Change::ListByte(168, 1),
            Change::ListByte(66, 7),
        ],
        // A length that is 0 or above 16.
        No::PathLength => &[
            Change::Length(0),
            Change::Length(17),
            Change::Length(65539),
            Change::Length(4294967299),
        ],
        // The first channel after the table's, and the largest number.
        No::NoChannel => &[Change::Channel(0, 16), Change::Channel(1, 65535)],
        // The second may be one that is not there.
        No::ChannelTwice => &[Change::Again(0), Change::Again(1)],
        // A flow that the list does not have.
        No::NoFlow => &[
            Change::Flow(0),
            Change::NextFlow,
            Change::Flow(1099511627777),
        ],
        No::AlreadyOpen => &[Change::Flow(1), Change::Flow(7)],
        No::NotOpen => &[Change::Flow(3), Change::Flow(8)],
        No::NoWords => &[Change::Words(0)],
        No::NoLimit => &[Change::LengthOnly, Change::Deadline(0)],
        // More words than the four free slots of the path deliver.
        No::TooMuch => &[Change::Words(11), Change::Words(65535)],
        // The free slots of the path leave a gap of 4.
        No::TooFar => &[Change::Gap(1), Change::Gap(3)],
        _ => &[],
    }
}

// The scene with a change.
fn with(scene: &Scene, change: Change) -> Scene {
    let mut changed = *scene;
    let len = scene.asked.path.len;
    let deadline = scene.asked.demand.deadline;
    match change {
        Change::Wheel(wheel) => changed.asked.wheel = wheel,
        Change::Table(size) => changed.asked.table = size,
        Change::List(size) => changed.asked.list = size,
        Change::TableByte(at, value) => changed.rooms.table[at % model::ROOM] = value,
        Change::ListByte(at, value) => changed.rooms.list[at % model::ROOM] = value,
        Change::Length(len) => changed.asked.path.len = len,
        Change::Channel(at, channel) => changed.asked.path.channels[at % 16] = channel,
        Change::Again(at) => {
            changed.asked.path.channels[2] = scene.asked.path.channels[at % 16];
        }
        Change::Flow(flow) => changed.asked.flow = flow,
        Change::NextFlow => changed.asked.flow = (scene.asked.list / model::ROW) as u64 + 1,
        Change::Words(words) => changed.asked.demand.words = words,
        Change::Deadline(deadline) => changed.asked.demand.deadline = deadline,
        Change::LengthOnly => changed.asked.demand.deadline = len.min(65535),
        Change::Gap(gap) => {
            changed.asked.demand.deadline = deadline.min(len.saturating_add(gap)).min(65535);
        }
    }
    changed
}

// ---- the calls

// Each way of a refusal's condition, by itself and together with each way of every later one.
fn every_way(call: Call, scene: &Scene, no: No, later: &[No]) -> Tally {
    let mut tally = Tally::default();
    for way in ways(no) {
        let one = with(scene, *way);
        tally.refused(call, &one, no);
        for other in later {
            if !exclude(no, *other) {
                with_later(&mut tally, call, &one, no, *other);
            }
        }
    }
    tally
}

// A refusal's condition together with a later one, in each of its ways.
fn with_later(tally: &mut Tally, call: Call, scene: &Scene, no: No, later: No) {
    for way in ways(later) {
        tally.refused(call, &with(scene, *way), no);
    }
}

// Every refusal of the order of a call, a line each.
fn every_number(rt: HostRuntime, call: Call, name: &str, scene: &Scene) -> io::Result<()> {
    let order = order(call);
    for (i, no) in order.iter().enumerate() {
        let tally = every_way(call, scene, *no, &order[i + 1..]);
        println!(rt; "{name} {}: {tally}", *no as u64)?;
    }
    Ok(())
}

// No condition: an opening at ease, and one that takes each free slot of its path and the whole gap
// that its deadline allows.
fn grants(scene: &Scene) -> Tally {
    let mut tally = Tally::default();
    let easy = Grant {
        slots: 0b100,
        count: 1,
        words: 2,
    };
    tally.answered(Call::Open, scene, Yes::Granted(easy));
    let most = Grant {
        slots: 0b1101100,
        count: 4,
        words: 10,
    };
    tally.answered(Call::Open, &scene.with_demand(10, 7), Yes::Granted(most));
    tally
}

// No condition: each flow closed, with so many cells.
fn closings(scene: &Scene) -> Tally {
    let mut tally = Tally::default();
    for (flow, cells) in [(1, 4), (2, 6), (5, 2), (7, 24)] {
        tally.answered(Call::Close, &scene.with_flow(flow), Yes::Cleared(cells));
    }
    tally
}

// No condition: the yes of a call that only reads.
fn reads(call: Call, scene: &Scene, yes: Yes) -> Tally {
    let mut tally = Tally::default();
    tally.answered(call, scene, yes);
    tally
}

// ---- what is printed

// Opening and closing.
fn changing(rt: HostRuntime, scene: &Scene) -> io::Result<()> {
    println!(rt; "open 0: {}", grants(scene))?;
    every_number(rt, Call::Open, "open", scene)?;
    println!(rt; "close 0: {}", closings(scene))?;
    every_number(rt, Call::Close, "close", &scene.with_flow(1))
}

// The report and agreement.
fn reading(rt: HostRuntime, scene: &Scene) -> io::Result<()> {
    println!(rt; "report 0: {}", reads(Call::Report, scene, trial::COUNTED))?;
    every_number(rt, Call::Report, "report", scene)?;
    println!(rt; "agree 0: {}", reads(Call::Agree, scene, Yes::Agreed))?;
    every_number(rt, Call::Agree, "agree", scene)
}

fn main(rt: HostRuntime) -> io::Result<()> {
    let scene = Scene::four_flows();
    changing(rt, &scene)?;
    reading(rt, &scene)
}
