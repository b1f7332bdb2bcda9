// Lengths and deadlines at the ends of their ranges: table lengths, numbers of channels, list lengths
// up to 66 records and between records, records past the list, which are not looked at, the least
// deadline, and the rows. A deadline of the path's length gives 12; one more, on a free table, grants
// the full wheel if that has the words. Every line counts the calls, as many as the loops make, and
// those that did not do what they must.
#![tactic(auto)]

use apart::{Grant, No, Wheel};
use model::{Call, Part, Yes};
use std::io;
use trial::{Scene, Tally, WHEEL};

// The bytes that flows up to flow 7 have in the list.
const SEVEN_FLOWS: usize = 7 * model::ROW;

// The grant of slot 0 alone.
const FIRST_SLOT: Grant = Grant {
    slots: 0b1,
    count: 1,
    words: 2,
};

// ---- other lengths

// Whether a length is tried: a multiple of 64, one more, or one less than the next.
fn is_edge(size: usize) -> bool {
    matches!(size % model::ROW, 0 | 1 | 63)
}

// The list lengths to 66 records, the most that the room has: 3 unless they are 64 for each of 1 to
// 64 flows; without flow 7 its cells are no flow's.
fn list_lengths(scene: &Scene) -> Tally {
    let mut tally = Tally::default();
    for size in (0..=model::ROOM).filter(|size| is_edge(*size)) {
        let mut cut = *scene;
        cut.asked.list = size;
        if !model::is_rows(size) {
            tally.all_refused(&cut, No::BadList);
        } else if size < SEVEN_FLOWS {
            tally.all_refused(&cut, No::Disagree);
        } else {
            tally.answered(Call::Report, &cut, trial::COUNTED);
        }
    }
    tally
}

// The four flows with a record past the list's eight open, each to the end of the room: flow 3 is
// opened as ever.
fn records_past(scene: &Scene) -> Tally {
    let granted = Yes::Granted(Grant {
        slots: 0b100,
        count: 1,
        words: 2,
    });
    let mut tally = Tally::default();
    for record in 8..66 {
        let mut open = *scene;
        open.rooms.list[record * model::ROW] = 1;
        tally.answered(Call::Report, &open, trial::COUNTED);
        tally.answered(Call::Open, &open, granted);
    }
    tally
}

// The four flows with 1 to 15 channels: flow 7 needs all sixteen.
fn fewer_channels(scene: &Scene) -> Tally {
    let mut tally = Tally::default();
    for channels in 1..16 {
        let mut cut = *scene;
        cut.asked.table = channels * model::ROW;
        tally.all_refused(&cut, No::Disagree);
    }
    tally
}

// The lengths of a free table to 66 channels, the most that the room has: good for a multiple of 64
// from 64 to 4096.
fn table_lengths(empty: &Scene) -> Tally {
    let mut tally = Tally::default();
    for size in (0..=model::ROOM).filter(|size| is_edge(*size)) {
        let mut cut = *empty;
        cut.asked.path.len = 1;
        cut.asked.table = size;
        if model::is_rows(size) {
            let free = size as u64 / 8;
            tally.answered(Call::Report, &cut, Yes::Counted { free, held: 0 });
            tally.answered(Call::Open, &cut, Yes::Granted(FIRST_SLOT));
        } else {
            tally.all_refused(&cut, No::BadTable);
        }
    }
    tally
}

// ---- rows

// The rows of sixteen channels, N cells each, and of as many that are not there.
fn every_row(scene: &Scene, n: u64) -> Tally {
    let asked = trial::asked(Wheel { n, ..WHEEL });
    let mut tally = Tally::default();
    for channel in 0..32 {
        let expected = if channel < 16 {
            Some(Part {
                at: 64 * channel,
                cells: n,
            })
        } else {
            None
        };
        let got = through::row(&scene.rooms.table, &asked, channel);
        tally.count(got == Ok(expected) && expected == model::row(&asked, channel));
    }
    tally
}

// A bad row: of a wheel of 65 slots, and of a table of 1,023 bytes.
fn bad_rows(scene: &Scene) -> Tally {
    let wheel = trial::asked(Wheel { n: 65, ..WHEEL });
    let mut short = trial::asked(WHEEL);
    short.table = 1023;
    let mut tally = Tally::default();
    tally.count(through::row(&scene.rooms.table, &wheel, 0) == Ok(None));
    tally.count(through::row(&scene.rooms.table, &short, 0) == Ok(None));
    tally
}

// ---- the least deadline

// On a free table, paths of 1, 4, 7, 10, 13 and 16 channels.
fn least_deadlines(empty: &Scene, wheel: Wheel) -> Tally {
    let mut tally = Tally::default();
    for len in [1, 4, 7, 10, 13, 16] {
        let mut scene = *empty;
        scene.asked.wheel = wheel;
        scene.asked.path.len = len;
        too_late(&mut tally, &scene, len);
        just_in_time(&mut tally, &scene, len + 1);
    }
    tally
}

// A deadline of the path's length: 12, whatever the words.
fn too_late(tally: &mut Tally, scene: &Scene, deadline: u64) {
    for words in [1, 65535] {
        tally.refused(Call::Open, &scene.with_demand(words, deadline), No::NoLimit);
    }
}

// One slot more: the full wheel for one word and for all that it has, and 13 for a word more.
fn just_in_time(tally: &mut Tally, scene: &Scene, deadline: u64) {
    let wheel = scene.asked.wheel;
    let full = Grant {
        slots: wheel.all(),
        count: wheel.n,
        words: wheel.words(wheel.all()),
    };
    for words in [1, full.words] {
        let asking = scene.with_demand(words, deadline);
        tally.answered(Call::Open, &asking, Yes::Granted(full));
    }
    let more = full.words.wrapping_add(1);
    tally.refused(Call::Open, &scene.with_demand(more, deadline), No::TooMuch);
}

// ---- numbers above 65,535, on a free table: 16 bits would cut each to one that is answered otherwise

// S of 65,539, cut to 3, and H of 65,537, cut to 1, are no wheel's.
fn wide_wheels(tally: &mut Tally, empty: &Scene) {
    let wide_slots = Wheel { s: 65539, ..WHEEL };
    let wide_headers = Wheel { h: 65537, ..WHEEL };
    for wheel in [wide_slots, wide_headers] {
        let mut scene = *empty;
        scene.asked.wheel = wheel;
        tally.all_refused(&scene, No::BadWheel);
    }
}

// No slots deliver 65,538 words, cut to 2; a deadline of 65,538, cut to 2, leaves time for a path of 3.
fn wide_demands(tally: &mut Tally, empty: &Scene) {
    tally.refused(Call::Open, &empty.with_demand(65538, 20), No::TooMuch);
    tally.answered(
        Call::Open,
        &empty.with_demand(2, 65538),
        Yes::Granted(FIRST_SLOT),
    );
}

// The same of bare selection; a limit of 65,536 is cut to 0.
fn wide_selections(tally: &mut Tally) {
    let words = apart::Asked {
        wheel: WHEEL,
        free: 255,
        words: 65538,
        limit: 8,
    };
    let limit = apart::Asked {
        words: 2,
        limit: 65536,
        ..words
    };
    tally.count(through::select(words) == Ok(Err(No::TooMuch)));
    tally.count(through::select(limit) == Ok(Ok(FIRST_SLOT)));
}

// Each of these.
fn wide_numbers(empty: &Scene) -> Tally {
    let mut tally = Tally::default();
    wide_wheels(&mut tally, empty);
    wide_demands(&mut tally, empty);
    wide_selections(&mut tally);
    tally
}

// ---- all of it

// The wheels of which the least deadline is tried.
const WHEELS: [Wheel; 5] = [
    WHEEL,
    Wheel { n: 1, ..WHEEL },
    Wheel {
        n: 5,
        s: 2,
        h: 0,
        p: 1,
    },
    Wheel { n: 64, ..WHEEL },
    Wheel {
        n: 63,
        s: 64,
        h: 63,
        p: 64,
    },
];

// On a free table: its lengths, the least deadline on several wheels, and wide numbers.
fn free(rt: HostRuntime) -> io::Result<()> {
    let empty = Scene::empty(WHEEL);
    println!(rt; "a table length: {}", table_lengths(&empty))?;
    for wheel in WHEELS {
        print!(rt; "deadline of the path's length and one more, {wheel}: ")?;
        println!(rt; "{}", least_deadlines(&empty, wheel))?;
    }
    println!(rt; "a number above 65535: {}", wide_numbers(&empty))
}

// Lengths of table and list of the four flows.
fn lengths(rt: HostRuntime, scene: &Scene) -> io::Result<()> {
    println!(rt; "fewer channels: {}", fewer_channels(scene))?;
    println!(rt; "a list length: {}", list_lengths(scene))?;
    println!(rt; "a record past the list: {}", records_past(scene))
}

// Rows of wheels of 8 and 64 slots.
fn rows(rt: HostRuntime, scene: &Scene) -> io::Result<()> {
    println!(rt; "a row, N 8: {}", every_row(scene, 8))?;
    println!(rt; "a row, N 64: {}", every_row(scene, 64))?;
    println!(rt; "a bad row: {}", bad_rows(scene))
}

fn main(rt: HostRuntime) -> io::Result<()> {
    let scene = Scene::four_flows();
    free(rt)?;
    lengths(rt, &scene)?;
    rows(rt, &scene)
}
