// The tests' one way to the library: every call goes through the functions of `face`, the code that
// firmware links, with table and list lent as bytes. What is asked and what is answered has the
// model's form.
#![tactic(auto)]

use apart::{Grant, No};
use model::{Asked, Call, Part, Reply, Yes};

// What an answer's array holds before a call, so that a no which writes there is seen.
const BEFORE: u64 = 7;

// An answer that no call may give: a number that is no refusal's, or a no that wrote into the lent
// array.
#[derive(Clone, Copy, PartialEq, Eq)]
pub struct Malformed;

// The answer that a number stands for: 0 is the yes, and any other a no, which leaves the lent array
// as it was.
fn told<Y: Copy>(number: u64, yes: Y, stayed: bool) -> Result<Result<Y, No>, Malformed> {
    if number == 0 {
        return Ok(Ok(yes));
    }
    match No::of_number(number) {
        Some(no) if stayed => Ok(Err(no)),
        _ => Err(Malformed),
    }
}

// Opens the flow.
fn open(table: &mut [u8], list: &mut [u8], asked: &Asked) -> Result<Reply, Malformed> {
    let wheel = asked.wheel;
    let channels = asked.path.channels;
    let mut values = [BEFORE; 3];
    let number = face::jellyspire_raw_open(
        table,
        list,
        wheel.n as usize,
        wheel.s as usize,
        wheel.h as usize,
        wheel.p as usize,
        asked.flow as usize,
        &channels,
        asked.path.len as usize,
        asked.demand.words as usize,
        asked.demand.deadline as usize,
        &mut values,
    );
    told(number, Yes::Granted(grant(values)), values == [BEFORE; 3])
}

// The grant that an array tells.
fn grant(values: [u64; 3]) -> Grant {
    let [slots, count, words] = values;
    Grant {
        slots,
        count,
        words,
    }
}

// Closes the flow.
fn close(table: &mut [u8], list: &mut [u8], asked: &Asked) -> Result<Reply, Malformed> {
    let wheel = asked.wheel;
    let mut values = [BEFORE; 1];
    let number = face::jellyspire_raw_close(
        table,
        list,
        wheel.n as usize,
        wheel.s as usize,
        wheel.h as usize,
        wheel.p as usize,
        asked.flow as usize,
        &mut values,
    );
    told(number, Yes::Cleared(values[0]), values == [BEFORE; 1])
}

// Reports free and held cells.
fn report(table: &[u8], list: &[u8], asked: &Asked) -> Result<Reply, Malformed> {
    let wheel = asked.wheel;
    let mut values = [BEFORE; 2];
    let number = face::jellyspire_raw_report(
        table,
        list,
        wheel.n as usize,
        wheel.s as usize,
        wheel.h as usize,
        wheel.p as usize,
        &mut values,
    );
    let [free, held] = values;
    told(number, Yes::Counted { free, held }, values == [BEFORE; 2])
}

// Whether table and list agree.
fn agree(table: &[u8], list: &[u8], asked: &Asked) -> Result<Reply, Malformed> {
    let wheel = asked.wheel;
    let number = face::jellyspire_raw_agree(
        table,
        list,
        wheel.n as usize,
        wheel.s as usize,
        wheel.h as usize,
        wheel.p as usize,
    );
    told(number, Yes::Agreed, true)
}

// A call on table and list, of which it is lent so many bytes as are asked for.
pub fn answer(
    call: Call,
    table: &mut [u8],
    list: &mut [u8],
    asked: &Asked,
) -> Result<Reply, Malformed> {
    let table = model::lent_part(table, asked.table);
    let list = model::lent_part(list, asked.list);
    match call {
        Call::Open => open(table, list, asked),
        Call::Close => close(table, list, asked),
        Call::Report => report(table, list, asked),
        Call::Agree => agree(table, list, asked),
    }
}

// The row of a channel, in a table of so many bytes as are asked for; none is told by 1.
pub fn row(table: &[u8], asked: &Asked, channel: u64) -> Result<Option<Part>, Malformed> {
    let wheel = asked.wheel;
    let mut values = [BEFORE; 2];
    let number = face::jellyspire_raw_row(
        &table[..asked.table.min(table.len())],
        wheel.n as usize,
        wheel.s as usize,
        wheel.h as usize,
        wheel.p as usize,
        channel as usize,
        &mut values,
    );
    let [at, cells] = values;
    match number {
        0 => Ok(Some(Part { at, cells })),
        1 if values == [BEFORE; 2] => Ok(None),
        _ => Err(Malformed),
    }
}

// Bare selection.
pub fn select(asked: apart::Asked) -> Result<Result<Grant, No>, Malformed> {
    let wheel = asked.wheel;
    let mut values = [BEFORE; 3];
    let number = face::jellyspire_raw_select(
        wheel.n as usize,
        wheel.s as usize,
        wheel.h as usize,
        wheel.p as usize,
        asked.free,
        asked.words as usize,
        asked.limit as usize,
        &mut values,
    );
    told(number, grant(values), values == [BEFORE; 3])
}
