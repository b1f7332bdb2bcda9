// Opens and closes flows through the lent forms of the library, and prints every answer with the
// report afterwards, and whether every byte of the table and every record are the model's: table and
// list from before the call are written down as bytes, and the model does the same call there. Rows
// and bare selection run too.
#![tactic(auto)]

ghost use Rattle.jellyspire.specs.Lent.{OpensLent, ClosesLent};

use apart::No;
use model::{Asked, Call, Reply, Rooms, Yes};
use rules::{Demand, Grant, Path, Record, Refusal, State, Wheel, Words};
use std::io;

// A wheel of 8 slots.
const WHEEL: Wheel = Wheel {
    n: 8,
    s: Words(3),
    h: Words(1),
    p: 3,
};

// The same, for the model.
const MODEL_WHEEL: apart::Wheel = apart::Wheel {
    n: 8,
    s: 3,
    h: 1,
    p: 3,
};

// The cells of two channels.
const CELLS: usize = 2 * model::ROW;

// The path over channel 0 and then channel 1.
const BOTH: [u16; 16] = [0, 1, 0, 0, 0, 0, 0, 0, 0, 0, 0, 0, 0, 0, 0, 0];

// The table of two channels, and the list of sixteen flows.
#[derive(Clone, Copy)]
struct Lists {
    table: [u8; CELLS],
    list: [Record; 16],
}

// A list of sixteen closed flows.
fn all_closed() -> [Record; 16] {
    let entries: [u16; 16] = [0; 16];
    let closed = Record {
        state: State::Closed,
        path: Path { entries, len: 0 },
        slots: 0,
    };
    [closed; 16]
}

// What flows ask for.
fn demand(words: u16, deadline: u16) -> Demand {
    Demand {
        words: Words(words),
        deadline,
    }
}

impl Lists {
    // Opens a flow over both channels.
    fn open(&mut self, flow: usize, demand: Demand) -> Result<Grant, Refusal>
        ensures { OpensLent WHEEL self.old.table self.old.list BOTH 2 flow demand self.new.table self.new.list result }
    {
        jellyspire::open(
            &mut self.table,
            &mut self.list,
            WHEEL,
            flow,
            BOTH,
            2,
            demand,
        )
    }

    // Closes a flow; how many cells that cleared.
    fn close(&mut self, flow: usize) -> Result<usize, Refusal>
        ensures { ClosesLent WHEEL self.old.table self.old.list flow self.new.table self.new.list result }
    {
        jellyspire::close(&mut self.table, &mut self.list, WHEEL, flow)
    }

    // Table and list as bytes.
    fn rooms(&self) -> Rooms {
        let mut table: [u8; model::ROOM] = [0; model::ROOM];
        table[..CELLS].copy_from_slice(&self.table);
        let mut list: [u8; model::ROOM] = [0; model::ROOM];
        for (flow, record) in (1..=16).zip(&self.list) {
            as_model(record).write(&mut list, flow);
        }
        Rooms { table, list }
    }
}

// ---- the model beside it

// A record as the model has it, by docs/RECORD.md.
fn as_model(record: &Record) -> model::Record {
    let channels = record.path.entries;
    let rest: [u16; 8] = [0; 8];
    let (state, words, deadline) = match record.state {
        State::Closed => (0, 0, 0),
        State::Open(demand) => (1, demand.words.0, demand.deadline),
    };
    model::Record {
        state,
        words,
        deadline,
        len: u16::try_from(record.path.len).unwrap_or(u16::MAX),
        channels,
        slots: record.slots,
        rest,
    }
}

// What is asked of the model.
fn asked(flow: usize, demand: Demand) -> Asked {
    Asked {
        wheel: MODEL_WHEEL,
        table: CELLS,
        list: 16 * model::ROW,
        flow: flow as u64,
        path: model::Path::over(&[0, 1]),
        demand: model::Demand {
            words: u64::from(demand.words.0),
            deadline: u64::from(demand.deadline),
        },
    }
}

// A grant in the model's form.
fn granted(grant: Grant) -> apart::Grant {
    apart::Grant {
        slots: grant.slots,
        count: grant.count as u64,
        words: u64::from(grant.words.0),
    }
}

// The model's no with the number of a refusal.
fn no_of(refusal: Refusal) -> Option<No> {
    No::of_number(refusal as u64)
}

// Whether the model, on rooms from before, answers the same and leaves this table and this list.
fn is_modelled(
    call: Call,
    asked: &Asked,
    before: Rooms,
    reply: Result<Yes, Refusal>,
    after: &Lists,
) -> bool {
    let mut rooms = before;
    let modelled = model::answer(call, &mut rooms.table, &mut rooms.list, asked);
    modelled.map_err(Some) == reply.map_err(no_of) && rooms == after.rooms()
}

// ---- what is printed

// Prints whether something is the model's.
fn say_modelled(rt: HostRuntime, same: bool) -> io::Result<()> {
    if same {
        println!(rt; "as modelled")
    } else {
        println!(rt; "not as modelled")
    }
}

// Prints a refusal.
fn say_refused(rt: HostRuntime, refusal: Refusal) -> io::Result<()> {
    println!(rt; "refused {}", refusal as u64)
}

// Prints whether table and list agree, and the report.
fn say_report(rt: HostRuntime, lists: &Lists) -> io::Result<()> {
    if jellyspire::agree(&lists.table, &lists.list, WHEEL) {
        print!(rt; "agree, ")?;
    } else {
        print!(rt; "disagree, ")?;
    }
    match jellyspire::report(&lists.table, &lists.list, WHEEL) {
        Ok(totals) => println!(rt; "free {}, held {}", totals.free, totals.held),
        Err(refusal) => say_refused(rt, refusal),
    }
}

// Opens a flow with the demand, and prints.
fn opens(rt: HostRuntime, lists: &mut Lists, flow: usize, demand: Demand) -> io::Result<()> {
    let before = lists.rooms();
    let answer = lists.open(flow, demand);
    print!(rt; "open {flow}: ")?;
    match answer {
        Ok(grant) => {
            let words = grant.words.0;
            println!(rt;
                "granted {}: {} slots, {words} words",
                grant.slots, grant.count
            )?;
        }
        Err(refusal) => say_refused(rt, refusal)?,
    }
    let reply = answer.map(|grant| Yes::Granted(granted(grant)));
    let asked = asked(flow, demand);
    say_modelled(rt, is_modelled(Call::Open, &asked, before, reply, lists))?;
    say_report(rt, lists)
}

// Closes a flow, and prints.
fn closes(rt: HostRuntime, lists: &mut Lists, flow: usize) -> io::Result<()> {
    let before = lists.rooms();
    let answer = lists.close(flow);
    print!(rt; "close {flow}: ")?;
    match answer {
        Ok(cells) => println!(rt; "cleared {cells} cells")?,
        Err(refusal) => say_refused(rt, refusal)?,
    }
    let reply = answer.map(|cells| Yes::Cleared(cells as u64));
    let asked = asked(flow, demand(0, 0));
    say_modelled(rt, is_modelled(Call::Close, &asked, before, reply, lists))?;
    say_report(rt, lists)
}

// A grant; the same flow again; and the last flow of the list.
fn opening(rt: HostRuntime, lists: &mut Lists) -> io::Result<()> {
    opens(rt, lists, 3, demand(4, 12))?;
    opens(rt, lists, 3, demand(4, 12))?;
    opens(rt, lists, 16, demand(9, 12))
}

// A flow past the end of the list; and more words than there is room for.
fn refusing(rt: HostRuntime, lists: &mut Lists) -> io::Result<()> {
    opens(rt, lists, 17, demand(1, 12))?;
    opens(rt, lists, 1, demand(60, 12))
}

// A flow that is not open; the two that are; and one of them again.
fn closing(rt: HostRuntime, lists: &mut Lists) -> io::Result<()> {
    closes(rt, lists, 2)?;
    closes(rt, lists, 3)?;
    closes(rt, lists, 3)?;
    closes(rt, lists, 16)
}

// A deadline that the path alone uses up; a grant; a list that does not know of it; and the one that
// does.
fn disagreeing(rt: HostRuntime, lists: &mut Lists) -> io::Result<()> {
    opens(rt, lists, 1, demand(4, 2))?;
    opens(rt, lists, 1, demand(4, 12))?;
    let mut unknowing = *lists;
    unknowing.list = all_closed();
    closes(rt, &mut unknowing, 1)?;
    closes(rt, lists, 1)
}

// The rows of both channels, and of one that is not there.
fn rows(rt: HostRuntime, table: &[u8; CELLS]) -> io::Result<()> {
    print!(rt; "row 0: ")?;
    say_modelled(rt, jellyspire::row(table, WHEEL, 0) == &table[..8])?;
    print!(rt; "row 1: ")?;
    say_modelled(rt, jellyspire::row(table, WHEEL, 1) == &table[64..72])?;
    print!(rt; "row 2: ")?;
    say_modelled(rt, jellyspire::row(table, WHEEL, 2).is_empty())
}

// Bare selection among the slots, and the same of the model.
fn selects(rt: HostRuntime, free: u64, words: u16, limit: u16) -> io::Result<()> {
    let answer = jellyspire::select(WHEEL, free, Words(words), limit);
    let modelled = model::select(apart::Asked {
        wheel: MODEL_WHEEL,
        free,
        words: u64::from(words),
        limit: u64::from(limit),
    });
    let slots = answer.map_or(0, |grant| grant.slots);
    print!(rt; "select: {slots}, ")?;
    say_modelled(
        rt,
        answer.map(granted).map_err(no_of) == modelled.map_err(Some),
    )
}

// P6 to P8 of document 01, a word too many, and a slot that is not there.
fn selecting(rt: HostRuntime) -> io::Result<()> {
    selects(rt, 0b1110101, 8, 8)?;
    selects(rt, 0b11001, 3, 8)?;
    selects(rt, 0b10011001, 5, 8)?;
    selects(rt, 255, 22, 8)?;
    selects(rt, 256, 1, 8)
}

fn main(rt: HostRuntime) -> io::Result<()> {
    let list = all_closed();
    let mut lists = Lists {
        table: [0; CELLS],
        list,
    };
    opening(rt, &mut lists)?;
    refusing(rt, &mut lists)?;
    rows(rt, &lists.table)?;
    closing(rt, &mut lists)?;
    disagreeing(rt, &mut lists)?;
    selecting(rt)
}
