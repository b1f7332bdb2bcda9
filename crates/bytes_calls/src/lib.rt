// The calls with the flow list lent as bytes (`bytes_list`). The list is never copied: each record is
// read where it stands, and a grant writes the 64 bytes of one.
#![tactic(auto)]

ghost use Rattle.rules.specs.Tells.{Tells};
ghost use Rattle.rules.specs.Paths.{chip_of};
ghost use Rattle.bytes_calls.specs.OverBytes.{AgreesBytes, PerformsBytes, OpensBytes, ClosesBytes, ReportsBytes};

use rules::{Call, Chip, Demand, Grant, Path, Refusal, Totals, Wheel, Yes};

// Whether wheel, table and list are good, and table and list agree.
pub fn agree(table: &[u8], list: &[u8], w: Wheel) -> bool
    ensures { Tells result (AgreesBytes (chip_of w table.now) table.now list.now) }
{
    let chip = table::chip_of(table, w);
    perform::agree(table, list, chip)
}

// Reports free and held cells.
pub fn report(table: &[u8], list: &[u8], w: Wheel) -> Result<Totals, Refusal>
    ensures { ReportsBytes (chip_of w table.now) table.now list.now result }
{
    let chip = table::chip_of(table, w);
    perform::report(table, list, chip)
}

// Performs a call.
pub fn perform(table: &mut [u8], list: &mut [u8], chip: Chip, call: Call) -> Result<Yes, Refusal>
    ensures { PerformsBytes chip table.old list.old call table.new list.new result }
{
    perform::perform(table, list, chip, call)
}

// Opens a flow on the path of the first `len` entries with a demand.
pub fn open(
    table: &mut [u8],
    list: &mut [u8],
    w: Wheel,
    flow: usize,
    path: [u16; 16],
    len: usize,
    demand: Demand,
) -> Result<Grant, Refusal>
    ensures { OpensBytes (chip_of w table.old) table.old list.old path len flow demand
        table.new list.new result }
{
    let chip = table::chip_of(table, w);
    let path = Path { entries: path, len };
    perform::open(table, list, chip, flow, path, demand)
}

// Closes a flow.
pub fn close(table: &mut [u8], list: &mut [u8], w: Wheel, flow: usize) -> Result<usize, Refusal>
    ensures { ClosesBytes (chip_of w table.old) table.old list.old flow table.new list.new result }
{
    let chip = table::chip_of(table, w);
    perform::close(table, list, chip, flow)
}
