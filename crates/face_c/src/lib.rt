// Jellyspire for C: each function of the crate face, exported under its own name and clauses. What
// users call stands in include/jellyspire.h.
#![tactic(auto)]

ghost use Rattle.rules.specs.Paths.{chip_of};
ghost use Rattle.rules.specs.Promises.{Selects};
ghost use Rattle.bytes_calls.specs.OverBytes.{ReportsBytes, ClosesBytes};
ghost use Rattle.face.specs.Told.{of_granted, of_cleared, of_reported, Answered};
ghost use Rattle.face.specs.Calls.{wheel_of, Agreeing, OpensGiven, Rowing};

// Bare selection: slots, how many, words.
#[unsafe(no_mangle)]
pub extern "C" fn jellyspire_raw_select(
    n: usize,
    s: usize,
    h: usize,
    p: usize,
    free: u64,
    words: usize,
    limit: usize,
    values: &mut [u64; 3],
) -> u64
    ensures { Answered (Selects (wheel_of n s h p) free words limit) of_granted result values.old values.new }
{
    face::jellyspire_raw_select(n, s, h, p, free, words, limit, values)
}

// Whether table and list agree: 0, or the number of the first thing that is wrong.
#[unsafe(no_mangle)]
pub extern "C" fn jellyspire_raw_agree(
    table: &[u8],
    list: &[u8],
    n: usize,
    s: usize,
    h: usize,
    p: usize,
) -> u64
    ensures { Agreeing (wheel_of n s h p) table.now list.now result }
{
    face::jellyspire_raw_agree(table, list, n, s, h, p)
}

// Free and held cells.
#[unsafe(no_mangle)]
pub extern "C" fn jellyspire_raw_report(
    table: &[u8],
    list: &[u8],
    n: usize,
    s: usize,
    h: usize,
    p: usize,
    values: &mut [u64; 2],
) -> u64
    ensures { Answered (ReportsBytes (chip_of (wheel_of n s h p) table.now) table.now list.now)
        of_reported result values.old values.new }
{
    face::jellyspire_raw_report(table, list, n, s, h, p, values)
}

// Opens a flow on a path of `len` channels with a demand: slots, how many, words.
#[unsafe(no_mangle)]
pub extern "C" fn jellyspire_raw_open(
    table: &mut [u8],
    list: &mut [u8],
    n: usize,
    s: usize,
    h: usize,
    p: usize,
    flow: usize,
    path: &[u16; 16],
    len: usize,
    words: usize,
    deadline: usize,
    values: &mut [u64; 3],
) -> u64
    ensures { Answered (OpensGiven (chip_of (wheel_of n s h p) table.old) table.old list.old path.now len flow
        words deadline table.new list.new) of_granted result values.old values.new }
{
    face::jellyspire_raw_open(
        table, list, n, s, h, p, flow, path, len, words, deadline, values,
    )
}

// Closes a flow: how many cells that cleared.
#[unsafe(no_mangle)]
pub extern "C" fn jellyspire_raw_close(
    table: &mut [u8],
    list: &mut [u8],
    n: usize,
    s: usize,
    h: usize,
    p: usize,
    flow: usize,
    values: &mut [u64; 1],
) -> u64
    ensures { Answered (ClosesBytes (chip_of (wheel_of n s h p) table.old) table.old list.old flow
        table.new list.new) of_cleared result values.old values.new }
{
    face::jellyspire_raw_close(table, list, n, s, h, p, flow, values)
}

// Where the row of a channel starts in the table, and its length; 1 and nothing told if wheel, table
// or channel is bad.
#[unsafe(no_mangle)]
pub extern "C" fn jellyspire_raw_row(
    table: &[u8],
    n: usize,
    s: usize,
    h: usize,
    p: usize,
    channel: usize,
    values: &mut [u64; 2],
) -> u64
    ensures { Rowing (wheel_of n s h p) table.now channel result values.old values.new }
{
    face::jellyspire_raw_row(table, n, s, h, p, channel, values)
}
