// The flow list as bytes, for callers that lend it as such: 64 for each record, which are 32 numbers
// of 16 bits, low byte first (docs/RECORD.md). A record is read straight from its bytes, and bytes
// that are no record are read as one that agrees with no table.
#![tactic(auto)]

ghost use Rattle.std.specs.Prelude.{◌≡◌, ℕ, ◌+◌, ◌%◌, ◌/◌, ◌≤◌, ◌<◌, get_or, length, set};
ghost use Rattle.rules.specs.Sets.{all};
ghost use Rattle.bytes_list.specs.Layout.{count_of, number_at, numbers_at, known_state, is_zero, formed, state_from, path_from, slots_from, decoded, state_number, slots_number, number_of, Written};

use rules::{Demand, Path, Record, State, Words};

// How many records the bytes are; 0 if their number is no multiple of 64.
#[tactic(auto, unfolding(crate::specs::Layout::count_of))]
pub fn count_of(bytes: &[u8]) -> usize
    ensures { result ≡ count_of bytes.now }
{
    let size = bytes.len();
    if size % 64 != 0 {
        return 0;
    }
    size / 64
}

// ---- reading: the 64 bytes of one record

// Number j of the record.
#[tactic(auto, unfolding(crate::specs::Layout::number_at))]
fn number_at(bytes: &[u8; 64], j: usize) -> u16
    requires { j < 32 }
    ensures { result ≡ number_at bytes.now 0 j }
{
    let low = bytes[2 * j];
    let high = bytes[2 * j + 1];
    u16::from_le_bytes([low, high])
}

// Whether the state is 0 with a demand of zeros, or 1.
#[tactic(auto, unfolding(crate::specs::Layout::known_state))]
fn known_state(bytes: &[u8; 64]) -> bool
    ensures { result ≡ known_state (numbers_at bytes.now 0) }
{
    match number_at(bytes, 0) {
        0 => number_at(bytes, 1) == 0 && number_at(bytes, 2) == 0,
        state => state == 1,
    }
}

// Whether the reserved numbers, 24 to 31, are 0.
fn rest_zero(bytes: &[u8; 64]) -> bool
    ensures { result ≡ all (is_zero (numbers_at bytes.now 0)) 8 }
{
    for j in 0..8 {
        if number_at(bytes, 24 + j) != 0 {
            return false;
        }
    }
    true
}

// Whether the numbers are those of a record.
#[tactic(auto, unfolding(crate::specs::Layout::formed))]
fn formed(bytes: &[u8; 64]) -> bool
    ensures { result ≡ formed (numbers_at bytes.now 0) }
{
    known_state(bytes) && rest_zero(bytes)
}

// Whether the 64 bytes from `at` on are a record.
pub fn is_record(bytes: &[u8], at: usize) -> bool
    requires { at + 64 ≤ length bytes.now }
    ensures { result ≡ formed (numbers_at bytes.now at) }
{
    let record = bytes[at..at + 64].as_array().unwrap();
    formed(record)
}

// The state; where the bytes are no record, open with a demand of no words, which no list may hold.
#[tactic(auto, unfolding(crate::specs::Layout::state_from))]
fn state_at(bytes: &[u8; 64]) -> State
    ensures { result ≡ state_from (numbers_at bytes.now 0) }
{
    if !formed(bytes) {
        return State::Open(Demand {
            words: Words(0),
            deadline: 0,
        });
    }
    if number_at(bytes, 0) == 0 {
        return State::Closed;
    }
    State::Open(Demand {
        words: Words(number_at(bytes, 1)),
        deadline: number_at(bytes, 2),
    })
}

// The sixteen path entries, numbers 4 to 19.
fn entries_at(bytes: &[u8; 64]) -> [u16; 16]
    ensures { result ≡ path_from (numbers_at bytes.now 0) }
{
    let mut entries: [u16; 16] = [0; 16];
    for i in 0..16 {
        entries[i] = number_at(bytes, 4 + i);
    }
    entries
}

// The chosen slots, numbers 20 to 23, the lowest first.
fn slots_at(bytes: &[u8; 64]) -> u64
    ensures { result ≡ slots_from (numbers_at bytes.now 0) }
{
    u64::from_le_bytes(*bytes[40..].first_chunk().unwrap())
}

// The record that starts at byte `at`.
pub fn record_at(list: &[u8], at: usize) -> Record
    requires { at + 64 ≤ length list.now }
    ensures { result ≡ decoded list.now at }
{
    let bytes = list[at..at + 64].as_array().unwrap();
    Record {
        state: state_at(bytes),
        path: Path {
            entries: entries_at(bytes),
            len: usize::from(number_at(bytes, 3)),
        },
        slots: slots_at(bytes),
    }
}

// ---- writing

// The first three numbers of a record in the state s: the state's own number and the demand.
#[tactic(auto, unfolding(crate::specs::Layout::state_number))]
fn state_numbers(s: State) -> [u16; 3]
    ensures { (j : ℕ) → j < 3 → get_or result j 0 ≡ state_number s j }
{
    match s {
        State::Closed => [0, 0, 0],
        State::Open(d) => [1, d.words.0, d.deadline],
    }
}

// Number j, 0 to 3, of the chosen slots.
#[tactic(auto, unfolding(crate::specs::Layout::slots_number))]
fn slots_number(x: u64, j: usize) -> u16
    requires { j < 4 }
    ensures { result ≡ slots_number x j }
{
    ((x >> (16 * j)) % 65536) as u16
}

// Number j of the record r.
#[tactic(auto, unfolding(crate::specs::Layout::number_of))]
fn number_of(r: Record, j: usize) -> u16
    requires { r.path.len ≤ 16 }
    ensures { result ≡ number_of r j }
{
    match j {
        0..3 => state_numbers(r.state)[j],
        3 => r.path.len as u16,
        4..20 => r.path.entries[j - 4],
        20..24 => slots_number(r.slots, j - 20),
        _ => 0,
    }
}

// Writes a number of 16 bits, low byte first.
fn put(bytes: &mut [u8], k: usize, v: u16)
    requires { k + 1 < length bytes.old }
    ensures { bytes.new ≡ set (set bytes.old k (v % 256)) (k + 1) (v / 256) }
{
    let [low, high] = v.to_le_bytes();
    bytes[k] = low;
    bytes[k + 1] = high;
}

// Writes the record r into the 64 bytes from `at` on.
pub fn write_record(list: &mut [u8], at: usize, r: Record)
    requires { (at + 64 ≤ length list.old) × (r.path.len ≤ 16) }
    ensures { Written list.old at r list.new }
{
    for j in 0..32 {
        put(list, at + 2 * j, number_of(r, j));
    }
}
