// The raw boundary, which is the same on every 64-bit processor. Its functions take and give integers
// and slices only. Each returns its number, 0 for a yes, and puts the values of a yes into the array
// that it is lent; a no leaves every lent byte as it was, the array too. The flow list is lent as
// bytes, 64 for each record (docs/RECORD.md). The crate face_c exports them to C under these names;
// what users call stands in include/jellyspire.h.
#![tactic(auto)]

ghost use Rattle.std.specs.Prelude.{◌≡◌, min};
ghost use Rattle.rules.specs.Paths.{chip_of};
ghost use Rattle.rules.specs.Numbers.{number};
ghost use Rattle.rules.specs.Promises.{Selects};
ghost use Rattle.bytes_calls.specs.OverBytes.{ReportsBytes, ClosesBytes};
ghost use Rattle.face.specs.Told.{Told, of_granted, of_cleared, of_reported, Answered};
ghost use Rattle.face.specs.Calls.{wheel_of, Agreeing, OpensGiven, Rowing};

use rules::{Demand, Grant, Refusal, Totals, Wheel, Words};

// ---- what C gives

// A number as 16 bits hold it: 65,535 for all above.
fn short(v: usize) -> u16
    ensures { result ≡ min v 65535 }
{
    v.min(65535) as u16
}

// The wheel of four numbers. No wheel with S or H above 65,535 is legal, and none becomes so.
fn wheel_of(n: usize, s: usize, h: usize, p: usize) -> Wheel
    ensures { result ≡ wheel_of n (min s 65535) (min h 65535) p }
{
    Wheel {
        n,
        s: Words(short(s)),
        h: Words(short(h)),
        p,
    }
}

// ---- what C is told

// Document 01's number of a refusal.
fn number_of(no: Refusal) -> u64
    ensures { result ≡ number no }
{
    u64::from(numbers::number(no))
}

// An answer: 0, and its values in the array; or the number of a no, and the array as it is.
fn tell<const N: usize>(a: Result<[u64; N], Refusal>, values: &mut [u64; N]) -> u64
    ensures { Told a.entry result values.old values.new }
{
    match a {
        Ok(v) => {
            *values = v;
            0
        }
        Err(no) => number_of(no),
    }
}

// A grant's slots, their number, and the words that they deliver.
fn granted(a: Result<Grant, Refusal>) -> Result<[u64; 3], Refusal>
    ensures { result ≡ of_granted a }
{
    let g = a?;
    Ok([g.slots, g.count as u64, u64::from(g.words.0)])
}

// How many cells a closing cleared.
fn cleared(a: Result<usize, Refusal>) -> Result<[u64; 1], Refusal>
    ensures { result ≡ of_cleared a }
{
    let cells = a?;
    Ok([cells as u64])
}

// Free and held cells.
fn counted(a: Result<Totals, Refusal>) -> Result<[u64; 2], Refusal>
    ensures { result ≡ of_reported a }
{
    let c = a?;
    Ok([c.free as u64, c.held as u64])
}

// ---- the calls

// Bare selection: slots, how many, words.
pub fn jellyspire_raw_select(
    n: usize,
    s: usize,
    h: usize,
    p: usize,
    free: u64,
    words: usize,
    limit: usize,
    values: &mut [u64; 3],
) -> u64
    ensures { Answered (Selects (wheel_of n s h p) free words limit) of_granted result values.old values.new }
{
    let w = wheel_of(n, s, h, p);
    let least = Words(short(words));
    let most = short(limit);
    let a = select::select(w, free, least, most);
    tell(granted(a), values)
}

// Whether table and list agree: 0, or the number of the first thing that is wrong.
pub fn jellyspire_raw_agree(
    table: &[u8],
    list: &[u8],
    n: usize,
    s: usize,
    h: usize,
    p: usize,
) -> u64
    ensures { Agreeing (wheel_of n s h p) table.now list.now result }
{
    let w = wheel_of(n, s, h, p);
    match bytes_calls::report(table, list, w) {
        Ok(_) => 0,
        Err(no) => number_of(no),
    }
}

// Free and held cells.
pub fn jellyspire_raw_report(
    table: &[u8],
    list: &[u8],
    n: usize,
    s: usize,
    h: usize,
    p: usize,
    values: &mut [u64; 2],
) -> u64
    ensures { Answered (ReportsBytes (chip_of (wheel_of n s h p) table.now) table.now list.now)
        of_reported result values.old values.new }
{
    let w = wheel_of(n, s, h, p);
    let a = bytes_calls::report(table, list, w);
    tell(counted(a), values)
}

// Opens a flow on a path of `len` channels with a demand: slots, how many, words.
pub fn jellyspire_raw_open(
    table: &mut [u8],
    list: &mut [u8],
    n: usize,
    s: usize,
    h: usize,
    p: usize,
    flow: usize,
    path: &[u16; 16],
    len: usize,
    words: usize,
    deadline: usize,
    values: &mut [u64; 3],
) -> u64
    ensures { Answered (OpensGiven (chip_of (wheel_of n s h p) table.old) table.old list.old path.now len flow
        words deadline table.new list.new) of_granted result values.old values.new }
{
    let w = wheel_of(n, s, h, p);
    let channels = *path;
    let demand = Demand {
        words: Words(short(words)),
        deadline: short(deadline),
    };
    let a = bytes_calls::open(table, list, w, flow, channels, len, demand);
    tell(granted(a), values)
}

// Closes a flow: how many cells that cleared.
pub fn jellyspire_raw_close(
    table: &mut [u8],
    list: &mut [u8],
    n: usize,
    s: usize,
    h: usize,
    p: usize,
    flow: usize,
    values: &mut [u64; 1],
) -> u64
    ensures { Answered (ClosesBytes (chip_of (wheel_of n s h p) table.old) table.old list.old flow
        table.new list.new) of_cleared result values.old values.new }
{
    let w = wheel_of(n, s, h, p);
    let a = bytes_calls::close(table, list, w, flow);
    tell(cleared(a), values)
}

// Where the row of a channel starts in the table, and its length; 1 and nothing told if wheel, table
// or channel is bad.
#[tactic(auto, using(crate::proofs::Parts::row_refused))]
pub fn jellyspire_raw_row(
    table: &[u8],
    n: usize,
    s: usize,
    h: usize,
    p: usize,
    channel: usize,
    values: &mut [u64; 2],
) -> u64
    ensures { Rowing (wheel_of n s h p) table.now channel result values.old values.new }
{
    let w = wheel_of(n, s, h, p);
    let length = table::row(table, w, channel).len();
    if length == 0 {
        return 1;
    }
    let offset = 64 * channel;
    *values = [offset as u64, length as u64];
    0
}
