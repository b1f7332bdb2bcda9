// The flow list that a caller lends, in any form: how many records it has, one of them read, and another
// put in its place. Calls are written once over this trait, and proved for every form.
#![tactic(auto)]

ghost use Rattle.std.specs.Prelude.{◌≡◌, List, ℕ, ◌<◌, length};
ghost use Rattle.rules.specs.declared.Record.{Record};
ghost use Rattle.rules.specs.Flows.{flow};
ghost use Rattle.bytes_list.specs.Layout.{count_of, list_in};
ghost use Rattle.lent.specs.Lists.{Fitting, Form, PutRecord, record_form, PutBytes, bytes_form, record_at, replaced_if};

use rules::Record;

// What a list is made of.
pub trait FlowList: Sized {
    // How many records the list has.
    ghost count: { List Self → ℕ };

    // The records that it stands for.
    ghost records: { List Self → List Record };

    // What it is with a record put in a place.
    ghost Put: { List Self → ℕ → Record → List Self → Type 0 };

    // A record that was put is in its place, and the others are where they were.
    ghost form: { Form count records Put };

    fn count(list: &[Self]) -> usize
        ensures { result ≡ count list.now };

    fn record(list: &[Self], i: usize) -> Record
        requires { i < count list.now }
        ensures { result ≡ flow (records list.now) i };

    fn put(list: &mut [Self], i: usize, r: Record)
        requires inside { i < count list.old }
        requires fits { Fitting r }
        ensures { Put list.old i r list.new };
}

// A list of records.
impl FlowList for Record {
    ghost count = { length };

    ghost records = { λ list. list };

    ghost Put = { PutRecord };

    ghost form = { record_form };

    fn count(list: &[Record]) -> usize {
        list.len()
    }

    fn record(list: &[Record], i: usize) -> Record {
        list[i]
    }

    fn put(list: &mut [Record], i: usize, r: Record) {
        replace_if(list, true, i, r)
    }
}

// A list of records as bytes, 64 for each.
impl FlowList for u8 {
    ghost count = { count_of };

    ghost records = { list_in };

    ghost Put = { PutBytes };

    ghost form = { bytes_form };

    fn count(list: &[u8]) -> usize {
        bytes_list::count_of(list)
    }

    #[tactic(auto, using(bytes_list::specs::ReadBack::flow_decoded))]
    fn record(list: &[u8], i: usize) -> Record {
        bytes_list::record_at(list, 64 * i)
    }

    fn put(list: &mut [u8], i: usize, r: Record) {
        bytes_list::write_record(list, 64 * i, r);
    }
}

// Record i of the list, or `otherwise` past its end.
pub fn record_at<T: FlowList>(list: &[T], i: usize, otherwise: Record) -> Record
    ensures { result ≡ record_at (T.count list.now) (T.records list.now) i otherwise }
{
    if i < T::count(list) {
        T::record(list, i)
    } else {
        otherwise
    }
}

// Puts r at place i of a list of records if `go` says so and the list is that long.
pub fn replace_if(list: &mut [Record], go: bool, i: usize, r: Record)
    ensures { list.new ≡ replaced_if list.old go i r }
{
    if go && i < list.len() {
        list[i] = r;
    }
}
