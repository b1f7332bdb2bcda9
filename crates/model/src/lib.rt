// A model of the calls over table and list as bytes, written apart: from document 01 and
// docs/RECORD.md alone, with none of the library's code and in plain numbers. It decides for any
// bytes and any lengths whether table and list agree: the table is painted anew from the list
// (rule 7), and every byte must be as painted.
#![tactic(auto)]

use apart::{Grant, No, Wheel};
pub use exact::select;

// The bytes of a channel's row in the table, and of a flow's record in the list.
pub const ROW: usize = 64;

// The most bytes that a table or a list has.
pub const MOST: usize = 64 * ROW;

// The bytes of a room: for 64 rows, and for two more, which no table and no list has.
pub const ROOM: usize = MOST + 2 * ROW;

// ---- what a call is given, and what it answers

// Table and list, each at the start of a room of its own.
#[derive(Clone, Copy, PartialEq, Eq)]
pub struct Rooms {
    pub table: [u8; ROOM],
    pub list: [u8; ROOM],
}

// The calls over table and list.
#[derive(Clone, Copy)]
pub enum Call {
    Open,
    Close,
    Report,
    Agree,
}

// A path: sixteen channels, of which so many are used.
#[derive(Clone, Copy)]
pub struct Path {
    pub channels: [u16; 16],
    pub len: u64,
}

// What a flow asks for: words in a revolution, and a deadline in slots.
#[derive(Clone, Copy)]
pub struct Demand {
    pub words: u64,
    pub deadline: u64,
}

// What a call is given beside the rooms: the wheel, of how many bytes table and list are, and what
// is asked. Closing reads only the flow of the last three, and the others nothing.
#[derive(Clone, Copy)]
pub struct Asked {
    pub wheel: Wheel,
    pub table: usize,
    pub list: usize,
    pub flow: u64,
    pub path: Path,
    pub demand: Demand,
}

// The yes of a call: what was granted, how many cells were cleared, free and held cells, or that
// table and list agree.
#[derive(Clone, Copy, PartialEq, Eq)]
pub enum Yes {
    Granted(Grant),
    Cleared(u64),
    Counted { free: u64, held: u64 },
    Agreed,
}

// What a call answers.
pub type Reply = Result<Yes, No>;

// The part of the table that is the row of a channel: where it begins, and how many cells it has.
#[derive(Clone, Copy, PartialEq, Eq)]
pub struct Part {
    pub at: u64,
    pub cells: u64,
}

impl Rooms {
    // Rooms of zeros: every cell is free, and every flow is closed.
    pub fn empty() -> Rooms {
        Rooms {
            table: [0; ROOM],
            list: [0; ROOM],
        }
    }
}

// The first bytes of a room, as many as are lent.
pub fn lent_part(room: &mut [u8], size: usize) -> &mut [u8] {
    let end = size.min(room.len());
    &mut room[..end]
}

// ---- paths and demands

impl Path {
    // The path over these channels, sixteen at most.
    pub fn over(used: &[u16]) -> Path {
        let len = used.len().min(16);
        let mut channels: [u16; 16] = [0; 16];
        channels[..len].copy_from_slice(&used[..len]);
        Path {
            channels,
            len: len as u64,
        }
    }

    // The channels that are used.
    fn used(&self) -> &[u16] {
        &self.channels[..self.len.min(16) as usize]
    }

    // What is wrong with the path where there are so many channels.
    fn check(&self, count: usize) -> Result<(), No> {
        if self.len == 0 || 16 < self.len {
            return Err(No::PathLength);
        }
        let used = self.used();
        if used.iter().any(|channel| count <= usize::from(*channel)) {
            return Err(No::NoChannel);
        }
        if repeats(used) {
            return Err(No::ChannelTwice);
        }
        Ok(())
    }
}

// Whether a channel stands twice.
fn repeats(used: &[u16]) -> bool {
    used.iter()
        .enumerate()
        .any(|(i, channel)| used[..i].contains(channel))
}

impl Demand {
    // Whether slots below N meet the demand on a path of so many channels (rules 4 and 5).
    fn is_met(self, wheel: Wheel, slots: u64, len: u64) -> bool {
        0 < self.words
            && len < self.deadline
            && apart::cut(slots, wheel.n) == slots
            && self.words <= wheel.words(slots)
            && apart::largest_gap(wheel.n, slots) <= self.deadline - len
    }
}

// ---- the list

// How many numbers of 16 bits a record has. The sixteen path entries stand from PATH on, the slots'
// four numbers from SLOTS on, and what is reserved from REST on.
const NUMBERS: usize = 32;

const PATH: usize = 4;

const SLOTS: usize = 20;

const REST: usize = 24;

// A flow's record: state 0 is closed and 1 open, and the rest is what its bytes say, as it is. The
// state is a number and no enum, since the bytes may hold any number, and the model decides for all.
#[derive(Clone, Copy, PartialEq, Eq, Default)]
pub struct Record {
    pub state: u16,
    pub words: u16,
    pub deadline: u16,
    pub len: u16,
    pub channels: [u16; 16],
    pub slots: u64,
    pub rest: [u16; 8],
}

// The numbers that bytes hold, low byte first.
fn numbers_of(bytes: &[u8]) -> [u16; NUMBERS] {
    let mut numbers: [u16; NUMBERS] = [0; NUMBERS];
    for (number, pair) in numbers.iter_mut().zip(bytes.chunks_exact(2)) {
        *number = u16::from_le_bytes([pair[0], pair[1]]);
    }
    numbers
}

// A number as a record's 16 bits keep it: 65,535 for all above.
fn kept(number: u64) -> u16 {
    number.min(65535) as u16
}

impl Record {
    // An open record with these slots.
    fn opened(path: &Path, demand: Demand, slots: u64) -> Record {
        let kept_path = Path::over(path.used());
        let channels = kept_path.channels;
        let rest: [u16; 8] = [0; 8];
        Record {
            state: 1,
            words: kept(demand.words),
            deadline: kept(demand.deadline),
            len: kept(path.len),
            channels,
            slots,
            rest,
        }
    }

    // The record that stands in these bytes.
    fn read(bytes: &[u8]) -> Record {
        let numbers = numbers_of(bytes);
        let mut channels: [u16; 16] = [0; 16];
        channels.copy_from_slice(&numbers[PATH..SLOTS]);
        let mut rest: [u16; 8] = [0; 8];
        rest.copy_from_slice(&numbers[REST..]);
        Record {
            state: numbers[0],
            words: numbers[1],
            deadline: numbers[2],
            len: numbers[3],
            channels,
            slots: slots_of(&numbers[SLOTS..REST]),
            rest,
        }
    }

    // Its numbers.
    fn numbers(&self) -> [u16; NUMBERS] {
        let mut numbers: [u16; NUMBERS] = [0; NUMBERS];
        numbers[0] = self.state;
        numbers[1] = self.words;
        numbers[2] = self.deadline;
        numbers[3] = self.len;
        numbers[PATH..SLOTS].copy_from_slice(&self.channels);
        for k in 0..4 {
            numbers[SLOTS + k] = (self.slots >> (16 * k) & 65535) as u16;
        }
        numbers[REST..].copy_from_slice(&self.rest);
        numbers
    }

    // Writes the record into the bytes of flow f; the first flow is 1.
    pub fn write(&self, list: &mut [u8], f: u64) {
        let Some(bytes) = list.chunks_exact_mut(ROW).nth(f.wrapping_sub(1) as usize) else {
            return;
        };
        for (pair, number) in bytes.chunks_exact_mut(2).zip(self.numbers()) {
            pair.copy_from_slice(&number.to_le_bytes());
        }
    }

    // Its path.
    fn path(&self) -> Path {
        Path {
            channels: self.channels,
            len: u64::from(self.len),
        }
    }

    // Its demand.
    fn demand(&self) -> Demand {
        Demand {
            words: u64::from(self.words),
            deadline: u64::from(self.deadline),
        }
    }

    // Whether it obeys its own rules: zeros throughout if it is closed, and else as an opening leaves
    // it, with slots that meet its demand.
    fn is_lawful(&self, wheel: Wheel, channels: usize) -> bool {
        if self.state == 0 {
            return *self == Record::default();
        }
        let path = self.path();
        let demand = self.demand();
        path.check(channels).is_ok()
            && *self == Record::opened(&path, demand, self.slots)
            && demand.is_met(wheel, self.slots, path.len)
    }

    // Writes v into every cell that the flow claims (rule 7); whether all of them were 0.
    fn mark(&self, table: &mut [u8], n: u64, v: u8) -> bool {
        let path = self.path();
        let mut free = true;
        for (i, channel) in path.used().iter().enumerate() {
            for s in 0..n {
                if apart::chosen(self.slots, s)
                    && let Some(cell) = table.get_mut(cell_at(n, *channel, i, s))
                {
                    free = free && *cell == 0;
                    *cell = v;
                }
            }
        }
        free
    }

    // How many cells the flow claims: as many as it has slots, at each position of its path.
    fn cells(&self) -> u64 {
        apart::size(self.slots).wrapping_mul(u64::from(self.len))
    }
}

// The slots that four numbers hold, the lowest first.
fn slots_of(numbers: &[u16]) -> u64 {
    numbers
        .iter()
        .rev()
        .fold(0, |slots, number| slots << 16 | u64::from(*number))
}

// Where the cell stands that slot s claims at position i of a path, on this channel.
fn cell_at(n: u64, channel: u16, i: usize, s: u64) -> usize {
    if n == 0 {
        return 0;
    }
    let slot = s.wrapping_add(i as u64) % n;
    usize::from(channel) * ROW + (slot % 64) as usize
}

// ---- table and list as they are lent

// Table and list, as a call sees them, on its wheel.
#[derive(Clone, Copy)]
struct Lent<'a> {
    wheel: Wheel,
    table: &'a [u8],
    list: &'a [u8],
}

// Whether so many bytes are 64 for each of 1 to 64 channels or flows.
pub fn is_rows(size: usize) -> bool {
    size % ROW == 0 && ROW <= size && size <= MOST
}

impl<'a> Lent<'a> {
    // How many channels there are.
    fn channels(self) -> usize {
        self.table.len() / ROW
    }

    // The table as the list has it: the cells of all flows painted into an empty table; or that they
    // cannot be, since a record does not obey its own rules or a cell is claimed twice.
    fn painted(self) -> Result<[u8; MOST], No> {
        let mut cells: [u8; MOST] = [0; MOST];
        for (f, bytes) in (1..=64).zip(self.list.chunks_exact(ROW)) {
            let record = Record::read(bytes);
            if !record.is_lawful(self.wheel, self.channels())
                || !record.mark(&mut cells, self.wheel.n, f)
            {
                return Err(No::Disagree);
            }
        }
        Ok(cells)
    }

    // What is wrong with wheel, table and list.
    fn check(self) -> Result<(), No> {
        if !self.wheel.fits() {
            return Err(No::BadWheel);
        }
        if !is_rows(self.table.len()) {
            return Err(No::BadTable);
        }
        if !is_rows(self.list.len()) {
            return Err(No::BadList);
        }
        if !self.painted()?.starts_with(self.table) {
            return Err(No::Disagree);
        }
        Ok(())
    }

    // The record of flow f; the first flow is 1.
    fn record(self, f: u64) -> Result<Record, No> {
        let place = f.checked_sub(1).ok_or(No::NoFlow)?;
        let bytes = self.list.chunks_exact(ROW).nth(place as usize);
        Ok(Record::read(bytes.ok_or(No::NoFlow)?))
    }

    // Whether slot s of the path is free (rule 1).
    fn is_free(self, path: &Path, s: u64) -> bool {
        path.used().iter().enumerate().all(|(i, channel)| {
            self.table.get(cell_at(self.wheel.n, *channel, i, s)) == Some(&0)
        })
    }

    // The free slots of the path.
    fn free(self, path: &Path) -> u64 {
        let mut slots = 0;
        for s in 0..self.wheel.n.min(64) {
            if self.is_free(path, s) {
                slots |= 1 << s;
            }
        }
        slots
    }

    // The best set for an opening, or what is wrong with it.
    fn opening(self, asked: &Asked) -> Result<Grant, No> {
        self.check()?;
        asked.path.check(self.channels())?;
        if self.record(asked.flow)?.state == 1 {
            return Err(No::AlreadyOpen);
        }
        let demand = asked.demand;
        if demand.words == 0 {
            return Err(No::NoWords);
        }
        if demand.deadline <= asked.path.len {
            return Err(No::NoLimit);
        }
        exact::select(apart::Asked {
            wheel: self.wheel,
            free: self.free(&asked.path),
            words: demand.words,
            limit: demand.deadline - asked.path.len,
        })
    }

    // The record that a closing of flow f is to clear, or what is wrong with the closing.
    fn closing(self, f: u64) -> Result<Record, No> {
        self.check()?;
        let record = self.record(f)?;
        if record.state != 1 {
            return Err(No::NotOpen);
        }
        Ok(record)
    }

    // The cells that are 0 among the first N of every row.
    fn free_cells(self) -> u64 {
        let n = self.wheel.n as usize;
        self.table
            .chunks_exact(ROW)
            .map(|row| row.iter().take(n).filter(|cell| **cell == 0).count() as u64)
            .fold(0, u64::wrapping_add)
    }

    // The cells that the flows hold.
    fn held_cells(self) -> u64 {
        self.list
            .chunks_exact(ROW)
            .map(|bytes| Record::read(bytes).cells())
            .fold(0, u64::wrapping_add)
    }

    // Counts free and held cells.
    fn report(self) -> Reply {
        self.check()?;
        Ok(Yes::Counted {
            free: self.free_cells(),
            held: self.held_cells(),
        })
    }

    // Whether table and list agree.
    fn agree(self) -> Reply {
        self.check()?;
        Ok(Yes::Agreed)
    }
}

// ---- the calls

// Makes the record of the flow asked for open, with these slots, and writes its cells.
pub fn write(table: &mut [u8], list: &mut [u8], asked: &Asked, slots: u64) {
    let record = Record::opened(&asked.path, asked.demand, slots);
    record.write(list, asked.flow);
    record.mark(table, asked.wheel.n, (asked.flow % 256) as u8);
}

// Opens the flow.
fn open(table: &mut [u8], list: &mut [u8], asked: &Asked) -> Reply {
    let lent = Lent {
        wheel: asked.wheel,
        table,
        list,
    };
    let grant = lent.opening(asked)?;
    write(table, list, asked, grant.slots);
    Ok(Yes::Granted(grant))
}

// Closes the flow.
fn close(table: &mut [u8], list: &mut [u8], asked: &Asked) -> Reply {
    let lent = Lent {
        wheel: asked.wheel,
        table,
        list,
    };
    let record = lent.closing(asked.flow)?;
    record.mark(table, asked.wheel.n, 0);
    Record::default().write(list, asked.flow);
    Ok(Yes::Cleared(record.cells()))
}

// A call on table and list, of which it sees so many bytes as are asked for.
pub fn answer(call: Call, table: &mut [u8], list: &mut [u8], asked: &Asked) -> Reply {
    let table = lent_part(table, asked.table);
    let list = lent_part(list, asked.list);
    let wheel = asked.wheel;
    match call {
        Call::Open => open(table, list, asked),
        Call::Close => close(table, list, asked),
        Call::Report => Lent { wheel, table, list }.report(),
        Call::Agree => Lent { wheel, table, list }.agree(),
    }
}

// The row of a channel; none for a bad wheel, table or channel.
pub fn row(asked: &Asked, channel: u64) -> Option<Part> {
    if !asked.wheel.fits() || !is_rows(asked.table) || (asked.table / ROW) as u64 <= channel {
        return None;
    }
    Some(Part {
        at: channel * 64,
        cells: asked.wheel.n,
    })
}
