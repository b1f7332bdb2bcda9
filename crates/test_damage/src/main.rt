// Damaged bytes. Each byte of a table and of its list is changed by itself, in several ways, and all
// four calls are made: each must do as the model does, which decides from the bytes whether table and
// list still agree. A table with a changed byte never does. In the list it may: words that the flow's
// slots still deliver and a deadline that they still keep are no damage, and the call goes on. How
// many calls are refused by 4 was counted apart, from docs/RECORD.md and document 01's rules.
#![tactic(auto)]

use std::io;
use trial::{Scene, Tally};

// Which bits of a cell are changed: one, those of the number of flow 7, or all.
const CELL_MASKS: [u8; 3] = [1, 7, 255];

// Which bits of a byte of the list are changed: each by itself, and several.
const MASKS: [u8; 16] = [1, 2, 4, 8, 16, 32, 64, 128, 3, 5, 7, 12, 15, 85, 170, 255];

// Where the low bytes of a record's words and of its deadline stand.
const WORDS: usize = 2;

const DEADLINE: usize = 4;

// Each byte of the table, three times.
fn table_bytes(scene: &Scene) -> Tally {
    let mut tally = Tally::default();
    for at in 0..scene.asked.table.min(model::ROOM) {
        for mask in CELL_MASKS {
            let mut damaged = *scene;
            damaged.rooms.table[at] ^= mask;
            tally.all_compared(&damaged);
        }
    }
    tally
}

// Each byte of the list, sixteen times.
fn list_bytes(scene: &Scene) -> Tally {
    let mut tally = Tally::default();
    for at in 0..scene.asked.list.min(model::ROOM) {
        for mask in MASKS {
            let mut damaged = *scene;
            damaged.rooms.list[at] ^= mask;
            tally.all_compared(&damaged);
        }
    }
    tally
}

// A byte of each of the eight records, with every value.
fn record_bytes(scene: &Scene, place: usize) -> Tally {
    let mut tally = Tally::default();
    for record in 0..8 {
        for value in 0..=255 {
            let mut damaged = *scene;
            if let Some(byte) = damaged
                .rooms
                .list
                .get_mut(record * model::ROW + place % model::ROW)
            {
                *byte = value;
            }
            tally.all_compared(&damaged);
        }
    }
    tally
}

fn main(rt: HostRuntime) -> io::Result<()> {
    let scene = Scene::four_flows();
    println!(rt; "a byte of the table: {}", table_bytes(&scene))?;
    println!(rt; "a byte of the list: {}", list_bytes(&scene))?;
    println!(rt; "the words of a record: {}", record_bytes(&scene, WORDS))?;
    println!(rt;
        "the deadline of a record: {}",
        record_bytes(&scene, DEADLINE)
    )
}
