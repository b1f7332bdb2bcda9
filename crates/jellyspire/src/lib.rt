// The library that others link, over a table and a list of records that the caller lends. A call reads
// the list record by record and never copies it; a refusal has written nothing, and a grant or a closing
// replaces the record of its flow and no other.
#![tactic(auto)]

ghost use Rattle.rules.specs.Tells.{Tells};
ghost use Rattle.rules.specs.Paths.{chip_of};
ghost use Rattle.rules.specs.Promises.{Row, Selects};
ghost use Rattle.jellyspire.specs.Lent.{AgreesLent, ReportsLent, PerformsLent, OpensLent, ClosesLent};

use rules::{Call, Chip, Demand, Grant, Path, Record, Refusal, Totals, Wheel, Words, Yes};

// The part of the table that holds the N cells of channel c; empty if wheel, table or channel is bad.
pub fn row(table: &[u8], w: Wheel, c: usize) -> &[u8]
    ensures { Row (chip_of w table.now) table.now c result.now }
{
    table::row(table, w, c)
}

// The best set of free slots that delivers the words with no gap above the limit.
pub fn select(w: Wheel, free: u64, words: Words, limit: u16) -> Result<Grant, Refusal>
    ensures { Selects w free words.0 limit result }
{
    select::select(w, free, words, limit)
}

// Whether wheel, table and list are good, and table and list agree.
pub fn agree(table: &[u8], list: &[Record], w: Wheel) -> bool
    ensures { Tells result (AgreesLent w table.now list.now) }
{
    let chip = table::chip_of(table, w);
    perform::agree(table, list, chip)
}

// Reports free and held cells.
pub fn report(table: &[u8], list: &[Record], w: Wheel) -> Result<Totals, Refusal>
    ensures { ReportsLent w table.now list.now result }
{
    let chip = table::chip_of(table, w);
    perform::report(table, list, chip)
}

// Performs a call.
pub fn perform(
    table: &mut [u8],
    list: &mut [Record],
    chip: Chip,
    call: Call,
) -> Result<Yes, Refusal>
    ensures { PerformsLent chip table.old list.old call table.new list.new result }
{
    perform::perform(table, list, chip, call)
}

// Opens a flow on the path of the first `len` entries with a demand.
pub fn open(
    table: &mut [u8],
    list: &mut [Record],
    w: Wheel,
    flow: usize,
    path: [u16; 16],
    len: usize,
    demand: Demand,
) -> Result<Grant, Refusal>
    ensures { OpensLent w table.old list.old path len flow demand table.new list.new result }
{
    let chip = table::chip_of(table, w);
    let path = Path { entries: path, len };
    perform::open(table, list, chip, flow, path, demand)
}

// Closes a flow.
pub fn close(table: &mut [u8], list: &mut [Record], w: Wheel, flow: usize) -> Result<usize, Refusal>
    ensures { ClosesLent w table.old list.old flow table.new list.new result }
{
    let chip = table::chip_of(table, w);
    perform::close(table, list, chip, flow)
}
