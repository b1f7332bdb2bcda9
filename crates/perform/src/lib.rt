// The calls, over a table and a list that the caller lends, in whatever form the list is: a call is decided,
// what was granted is written into the table, and the flow's record is replaced. A list is never copied, and
// a refusal has written nothing.
#![tactic(auto)]

ghost use Rattle.rules.specs.Tells.{Tells};
ghost use Rattle.rules.specs.Orders.{Agrees, opening, closing};
ghost use Rattle.rules.specs.Promises.{of_opened, of_cleared, Reports};
ghost use Rattle.perform.specs.Performed.{RecordOf, PerformsOn};

use lent::FlowList;
use rules::{Call, Chip, Demand, Grant, Path, Record, Refusal, Totals, Yes};

// The record of a flow; the closed one where the list has no such flow.
fn flow_record<T: FlowList>(list: &[T], flow: usize) -> Record
    ensures { RecordOf (T.records list.now) (T.count list.now) flow result }
{
    let none = changes::closed_record();
    if flow < 1 || 64 < flow {
        return none;
    }
    lent::record_at(list, flow - 1, none)
}

// Performs a call.
pub fn perform<T: FlowList>(
    table: &mut [u8],
    list: &mut [T],
    chip: Chip,
    call: Call,
) -> Result<Yes, Refusal>
    ensures { PerformsOn T.count T.records T.Put chip table.old list.old call table.new list.new result }
{
    let n = T::count(list);
    let held = agree::held(table, list, chip);
    let r = flow_record(list, call.flow);
    let yes = decide::decide(table, chip, n, held, r, call)?;
    let change = changes::change(r, call, yes);
    table::mark(table, chip, change.path, change.slots, change.value as u8);
    T::put(list, call.flow - 1, change.new);
    Ok(yes)
}

// Opens a flow on a path with a demand.
pub fn open<T: FlowList>(
    table: &mut [u8],
    list: &mut [T],
    chip: Chip,
    flow: usize,
    path: Path,
    demand: Demand,
) -> Result<Grant, Refusal>
    ensures { PerformsOn T.count T.records T.Put chip table.old list.old (opening path.entries path.len flow demand)
        table.new list.new (of_opened result) }
{
    let call = changes::to_open(flow, path, demand);
    changes::opened_as(perform(table, list, chip, call))
}

// Closes a flow.
pub fn close<T: FlowList>(
    table: &mut [u8],
    list: &mut [T],
    chip: Chip,
    flow: usize,
) -> Result<usize, Refusal>
    ensures { PerformsOn T.count T.records T.Put chip table.old list.old (closing flow)
        table.new list.new (of_cleared result) }
{
    let call = changes::to_close(flow);
    changes::cleared_as(perform(table, list, chip, call))
}

// Whether wheel, table and list are good, and table and list agree.
pub fn agree<T: FlowList>(table: &[u8], list: &[T], chip: Chip) -> bool
    ensures { Tells result (Agrees chip table.now (T.count list.now) (T.records list.now)) }
{
    agree::held(table, list, chip).is_some()
}

// Reports free and held cells.
pub fn report<T: FlowList>(table: &[u8], list: &[T], chip: Chip) -> Result<Totals, Refusal>
    ensures { Reports chip table.now (T.count list.now) (T.records list.now) result }
{
    let counted = agree::held(table, list, chip);
    let held = decide::enter(table, chip, T::count(list), counted)?;
    let cells = chip.channels * chip.wheel.n;
    Ok(Totals {
        free: cells - held,
        held,
    })
}
