// What a call is answered, decided with the table only lent to read: nothing is written here. The
// decision sees one record of the list and is told of the rest whether it agrees with the table, so
// that it serves every form of the list. Each function asks some lines of the order, `?` goes on to the
// next, and so the lowest number wins.
#![tactic(auto)]

ghost use Rattle.std.specs.Prelude.{◌≡◌, true, false, is_some, List, ℕ, ◌≤◌};
ghost use Rattle.rules.specs.Wheels.{Legal};
ghost use Rattle.rules.specs.Flows.{Own};
ghost use Rattle.rules.specs.Orders.{way_lines, flow_lines, path_lines, state_lines};
ghost use Rattle.rules.specs.declared.Call.{Call};
ghost use Rattle.rules.specs.declared.Verb.TheVariants.{ToOpen, ToClose};
ghost use Rattle.table.specs.Along.{Walkable};
ghost use Rattle.decide.specs.Decisions.{Gates, Asks, Settles, Decides};

use rules::{Call, Chip, Demand, Path, Record, Refusal, Verb, Yes};

// What every call on a table asks first: 1, 2, 3 and 4. Where table and list agree, `held` is how many
// cells the flows hold, and that is handed on.
pub fn enter(table: &[u8], chip: Chip, n: usize, held: Option<usize>) -> Result<usize, Refusal>
    ensures { Gates chip table.now n held result }
{
    if !measure::legal(chip.wheel) {
        return Err(Refusal::BadWheel);
    }
    if !table::is_table(table, chip) {
        return Err(Refusal::BadTable);
    }
    if n < 1 || 64 < n {
        return Err(Refusal::BadList);
    }
    held.ok_or(Refusal::Disagree)
}

// What an opening asks of its path: 5, 6, 7.
fn pass_path(path: Path, chip: Chip) -> Result<(), Refusal>
    ensures { Asks (path_lines chip path.entries path.len) result }
{
    if path.len < 1 || 16 < path.len {
        return Err(Refusal::PathLength);
    }
    if !flows::inside(path, chip.channels) {
        return Err(Refusal::NoChannel);
    }
    if !flows::once(path) {
        return Err(Refusal::ChannelTwice);
    }
    Ok(())
}

// What comes before the flow: an opening's path.
fn pass_way(call: Call, chip: Chip) -> Result<(), Refusal>
    ensures { Asks (way_lines chip call call.verb) result }
{
    match call.verb {
        Verb::ToOpen(_) => pass_path(call.path, chip),
        Verb::ToClose => Ok(()),
    }
}

// Whether a list of n records has the flow: 8.
fn pass_flow(flow: usize, n: usize) -> Result<(), Refusal>
    ensures { Asks (flow_lines n flow) result }
{
    if flow < 1 || n < flow {
        return Err(Refusal::NoFlow);
    }
    Ok(())
}

// Decides on opening a flow in this state: 9, 11, 12, and then selection among the free slots of the path.
fn decide_opening(
    table: &[u8],
    chip: Chip,
    r: Record,
    call: Call,
    demand: Demand,
) -> Result<Yes, Refusal>
    requires legal { Legal chip.wheel }
    requires walkable { Walkable chip table.now call.path.entries call.path.len }
    ensures { Settles (state_lines chip table.now r.state call (ToOpen demand)) chip table.now r call (ToOpen demand) result }
{
    if flows::claims_cells(r.state) {
        return Err(Refusal::AlreadyOpen);
    }
    if demand.words.0 < 1 {
        return Err(Refusal::NoWords);
    }
    let last = usize::from(demand.deadline);
    let travel = route::travel(chip, call.path);
    if last <= travel {
        return Err(Refusal::NoTime);
    }
    let free = table::free_slots(table, chip, call.path);
    let limit = (last - travel) as u16;
    let granted = select::select(chip.wheel, free, demand.words, limit)?;
    Ok(Yes::Granted(granted))
}

// Decides on closing a flow whose record is r: 10.
fn decide_closing(chip: Chip, r: Record) -> Result<Yes, Refusal>
    requires { Legal chip.wheel × (r.path.len ≤ 16) }
    ensures { (t : List ℕ) (call : Call) → Settles (state_lines chip t r.state call ToClose) chip t r call ToClose result }
{
    if !flows::claims_cells(r.state) {
        return Err(Refusal::NotOpen);
    }
    Ok(Yes::Cells(flows::cells_of(chip.wheel, r)))
}

// Decides on a call on the flow whose record is r: 1 to 4, then what is its own.
pub fn decide(
    table: &[u8],
    chip: Chip,
    n: usize,
    held: Option<usize>,
    r: Record,
    call: Call,
) -> Result<Yes, Refusal>
    requires { is_some held ≡ true → Own chip r.state r }
    ensures { Decides chip table.now n (is_some held ≡ false) r call call.verb result }
{
    enter(table, chip, n, held)?;
    pass_way(call, chip)?;
    pass_flow(call.flow, n)?;
    match call.verb {
        Verb::ToOpen(demand) => decide_opening(table, chip, r, call, demand),
        Verb::ToClose => decide_closing(chip, r),
    }
}
