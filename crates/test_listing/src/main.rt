// Runs the listing on every case that the arguments name, and prints the name before each. The
// cases and what is expected of them were made outside, by no program of ours.
#![tactic(auto)]

use std::{fs, io};

// One case: its name, and its listing.
fn one(rt: HostRuntime, name: &str) -> io::Result<()> {
    println!(rt; "== {name}")?;
    let mut file = fs::open(&rt, name)?;
    console::run(&mut file, &mut rt.stdout())
}

// Room for the name of a case.
fn name_room() -> [u8; 4096] {
    [0; 4096]
}

fn main(rt: HostRuntime) -> io::Result<()> {
    let mut room = name_room();
    for k in 1..usize::MAX {
        let Some(name) = input::argument(&rt, k, &mut room)? else {
            break;
        };
        one(rt, name)?;
    }
    Ok(())
}
