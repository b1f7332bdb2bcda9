// What a call changes, as values: the records of open and closed flows, the cells and the record that a
// yes puts in place, and opening and closing as calls. Nothing is read or written here.
#![tactic(auto)]

ghost use Rattle.std.specs.Prelude.{◌≡◌};
ghost use Rattle.rules.specs.Orders.{opening, closing};
ghost use Rattle.rules.specs.Promises.{open_record, closed_record, change};
ghost use Rattle.rules.specs.declared.Record.{Record};
ghost use Rattle.rules.specs.declared.Call.{Call};
ghost use Rattle.rules.specs.declared.Yes.{Yes};
ghost use Rattle.rules.specs.declared.Verb.TheVariants.{ToOpen, ToClose};
ghost use Rattle.ledger.specs.Calls.{to_opened, to_cleared};
ghost use Rattle.changes.specs.Changes.{no_path, trimmed_path, no_change};

use rules::{Call, Change, Demand, Grant, Path, Record, Refusal, State, Verb, Yes};

// ---- records

// The path of a closed flow.
#[tactic(auto, unfolding(rules::specs::Paths::trimmed, rules::specs::Sets::list_of))]
fn no_path() -> Path
    ensures { result ≡ no_path }
{
    Path {
        entries: [0; 16],
        len: 0,
    }
}

// The path with zeros in its unused entries.
fn trim(path: Path) -> Path
    ensures { result ≡ trimmed_path path }
{
    let mut entries = path.entries;
    for i in path.len..16 {
        entries[i] = 0;
    }
    Path {
        entries,
        len: path.len,
    }
}

// The record of a flow that is closed.
#[tactic(auto, unfolding(rules::specs::Promises::closed_record))]
pub fn closed_record() -> Record
    ensures { result ≡ closed_record }
{
    Record {
        state: State::Closed,
        path: no_path(),
        slots: 0,
    }
}

// The record of a flow that was opened.
#[tactic(auto, unfolding(rules::specs::Promises::open_record))]
fn open_record(path: Path, slots: u64, demand: Demand) -> Record
    ensures { result ≡ open_record path.entries path.len slots demand }
{
    Record {
        state: State::Open(demand),
        path: trim(path),
        slots,
    }
}

// ---- what is changed

// What a closing changes.
fn closing(r: Record) -> Change
    ensures { (call : Call) (y : Yes) → result ≡ change r call ToClose y }
{
    Change {
        path: r.path,
        slots: r.slots,
        value: 0,
        new: closed_record(),
    }
}

// An opening is never answered `Cells`; that case gets the change that changes nothing, the closing of a
// closed flow.
fn no_change() -> Change
    ensures { result ≡ no_change }
{
    closing(closed_record())
}

// What an opening changes.
fn opening(call: Call, demand: Demand, y: Yes) -> Change
    ensures { (r : Record) → result ≡ change r call (ToOpen demand) y }
{
    match y {
        Yes::Granted(g) => Change {
            path: call.path,
            slots: g.slots,
            value: call.flow,
            new: open_record(call.path, g.slots, demand),
        },
        Yes::Cells(_) => no_change(),
    }
}

// What a yes changes, by the verb.
pub fn change(r: Record, call: Call, y: Yes) -> Change
    ensures { result ≡ change r call call.verb y }
{
    match call.verb {
        Verb::ToOpen(d) => opening(call, d, y),
        Verb::ToClose => closing(r),
    }
}

// ---- opening and closing, as calls

// A call to open a flow.
pub fn to_open(flow: usize, path: Path, demand: Demand) -> Call
    ensures { result ≡ opening path.entries path.len flow demand }
{
    Call {
        flow,
        verb: Verb::ToOpen(demand),
        path,
    }
}

// A call to close a flow; it reads the recorded path, and brings none.
pub fn to_close(flow: usize) -> Call
    ensures { result ≡ closing flow }
{
    Call {
        flow,
        verb: Verb::ToClose,
        path: no_path(),
    }
}

// A call's answer as that of an opening. No opening tells of cells: no call reaches that case, and `BadWheel`
// fills it, because the function must answer for every yes.
pub fn opened_as(a: Result<Yes, Refusal>) -> Result<Grant, Refusal>
    ensures { result ≡ to_opened a }
{
    match a? {
        Yes::Granted(g) => Ok(g),
        Yes::Cells(_) => Err(Refusal::BadWheel),
    }
}

// A call's answer as that of a closing. No closing tells of a grant: no call reaches that case, and `BadWheel`
// fills it, because the function must answer for every yes.
pub fn cleared_as(a: Result<Yes, Refusal>) -> Result<usize, Refusal>
    ensures { result ≡ to_cleared a }
{
    match a? {
        Yes::Granted(_) => Err(Refusal::BadWheel),
        Yes::Cells(k) => Ok(k),
    }
}
