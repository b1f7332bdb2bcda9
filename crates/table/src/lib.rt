// The slot table: 64 bytes for each channel, channel c from byte 64 × c on. Everything that is done
// along a path is done row by row: the row of each channel is lent to a leaf that reads or writes it.
#![tactic(auto)]

ghost use Rattle.std.specs.Prelude.{◌≡◌, ◌+◌, ◌*◌, ◌%◌, ◌≤◌, ◌<◌, length};
ghost use Rattle.rules.specs.Tells.{Tells};
ghost use Rattle.rules.specs.Wheels.{Legal};
ghost use Rattle.rules.specs.Paths.{chip_of, free_slots, shift, Stamped};
ghost use Rattle.rules.specs.Orders.{Tabled};
ghost use Rattle.rules.specs.Promises.{HasRow, Row};
ghost use Rattle.ledger.specs.Totals.{used_cells};
ghost use Rattle.table.specs.Along.{Holds, IsRow, Walkable};

use rows::Turn;
use rules::{Chip, Path, Wheel};

// The chip that a wheel and a table are of.
pub fn chip_of(table: &[u8], w: Wheel) -> Chip
    ensures { result ≡ chip_of w table.now }
{
    Chip {
        wheel: w,
        channels: table.len() / 64,
    }
}

// Whether the table has 64 bytes for each of the chip's channels, and these are 1 to 64.
pub fn is_table(table: &[u8], chip: Chip) -> bool
    ensures { Tells result (Tabled chip.channels table.now) }
{
    let channels = chip.channels;
    1 <= channels && channels <= 64 && table.len() == 64 * channels
}

// Whether wheel and table are good and channel c is in the table.
fn has_row(table: &[u8], chip: Chip, c: usize) -> bool
    ensures { Tells result (HasRow chip table.now c) }
{
    measure::legal(chip.wheel) && is_table(table, chip) && c < chip.channels
}

// The part of the table that holds the N cells of channel c; empty if wheel, table or channel is bad.
pub fn row(table: &[u8], w: Wheel, c: usize) -> &[u8]
    ensures { Row (chip_of w table.now) table.now c result.now }
{
    let chip = chip_of(table, w);
    if !has_row(table, chip, c) {
        return &table[..0];
    }
    let from = 64 * c;
    &table[from..from + w.n]
}

// The 64 cells of channel c.
fn cells(table: &[u8], c: usize) -> &[u8; 64]
    requires { 64 * c + 64 ≤ length table.now }
    ensures { IsRow table.now c result.now }
{
    let from = 64 * c;
    table[from..from + 64].as_array().unwrap()
}

// How the row of the path's position i is seen.
fn turn(chip: Chip, path: Path, i: usize) -> Turn
    requires { Legal chip.wheel × (i < 16) }
    ensures wheel { result.wheel ≡ chip.wheel }
    ensures shift { result.shift ≡ shift chip path.entries i % chip.wheel.n }
{
    Turn {
        wheel: chip.wheel,
        shift: route::turn(chip, path, i),
    }
}

// The free slots of a path (rule 1): at each position the slots whose cell there is taken drop out.
pub fn free_slots(table: &[u8], chip: Chip, path: Path) -> u64
    requires legal { Legal chip.wheel }
    requires walkable { Walkable chip table.now path.entries path.len }
    ensures { result ≡ free_slots chip table.now path.entries path.len }
{
    let mut x = rows::all_slots(chip.wheel);
    for i in 0..path.len {
        let row = cells(table, route::channel(path, i));
        x = rows::still_free(row, turn(chip, path, i), x);
    }
    x
}

// Writes v into every cell that the slots x claim on the path (rule 7); 0 clears them.
pub fn mark(table: &mut [u8], chip: Chip, path: Path, x: u64, v: u8)
    requires legal { Legal chip.wheel }
    requires walkable { Walkable chip table.old path.entries path.len }
    ensures { Stamped chip path.entries path.len x v table.old table.new }
{
    for i in 0..path.len {
        let from = 64 * route::channel(path, i);
        let turn = turn(chip, path, i);
        rows::mark_row(&mut table[from..from + 64], turn, x, v);
    }
}

// Whether every cell that the slots x claim on the path holds v.
pub fn holds(table: &[u8], chip: Chip, path: Path, x: u64, v: u8) -> bool
    requires legal { Legal chip.wheel }
    requires walkable { Walkable chip table.now path.entries path.len }
    ensures { Tells result (Holds chip table.now path.entries path.len x v) }
{
    for i in 0..path.len {
        let row = cells(table, route::channel(path, i));
        if !rows::row_holds(row, turn(chip, path, i), x, v) {
            return false;
        }
    }
    true
}

// How many cells of the table are not 0. A for loop: as a chain of filter and count it takes twice the time.
pub fn count_used(table: &[u8]) -> usize
    ensures { result ≡ used_cells table.now }
{
    let mut count = 0;
    for cell in table {
        if *cell != 0 {
            count += 1;
        }
    }
    count
}
