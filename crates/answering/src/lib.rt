// One line of the listing: read, carried out on table and list, and answered. The list is lent as the
// bytes of 16 records, so that the calls are those of the archive.
#![tactic(auto)]

ghost use Rattle.std.specs.Prelude.{◌≡◌, ◌<◌, length, replicate};
ghost use Rattle.answering.specs.Lines.{state_of, state, RoomFor, OpenLine, CloseLine, ReportLine, Lined, Fed};

use reading::Request;
use rules::{Demand, Path, Wheel, Words};
use texts::Page;

// The default wheel.
const WHEEL: Wheel = Wheel {
    n: 8,
    s: Words(3),
    h: Words(1),
    p: 3,
};

// A line that asks for an opening.
fn open_line(
    table: &mut [u8],
    list: &mut [u8],
    flow: usize,
    demand: Demand,
    path: Path,
    page: &mut Page,
)
    requires sixteen { length list.old ≡ 1024 }
    requires room { RoomFor 83 page.old }
    ensures { OpenLine flow demand path (state_of table.old list.old)
        (state_of table.new list.new) page.old page.new }
{
    let answer = bytes_calls::open(table, list, WHEEL, flow, path.entries, path.len, demand);
    printing::put_open(page, flow, answer);
}

// A line that asks for a closing.
fn close_line(table: &mut [u8], list: &mut [u8], flow: usize, page: &mut Page)
    requires sixteen { length list.old ≡ 1024 }
    requires room { RoomFor 83 page.old }
    ensures { CloseLine flow (state_of table.old list.old)
        (state_of table.new list.new) page.old page.new }
{
    let answer = bytes_calls::close(table, list, WHEEL, flow);
    printing::put_close(page, flow, answer);
}

// A line that asks for the report.
fn report_line(table: &[u8], list: &[u8], page: &mut Page)
    requires sixteen { length list.now ≡ 1024 }
    requires room { RoomFor 83 page.old }
    ensures { ReportLine (state_of table.now list.now) page.old page.new }
{
    let answer = bytes_calls::report(table, list, WHEEL);
    printing::put_report(page, answer);
}

// Reads line k, carries it out and puts its text.
fn answer(line: &[u8], table: &mut [u8], list: &mut [u8], k: usize, page: &mut Page)
    requires sixteen { length list.old ≡ 1024 }
    requires room { RoomFor 83 page.old }
    requires number { k < 10000 }
    ensures { Lined (state_of table.old list.old) k line.now
        (state_of table.new list.new) page.old page.new }
{
    match reading::command(line) {
        Some(Request::Open { flow, demand, path }) => {
            open_line(table, list, usize::from(flow), demand, path, page)
        }
        Some(Request::Close { flow }) => close_line(table, list, usize::from(flow), page),
        Some(Request::Report) => report_line(table, list, page),
        None => printing::put_bad(page, k),
    }
}

// Line k with its text and a line feed, on a table of any length and a list of 16 flows.
pub fn line(text: &[u8], table: &mut [u8], list: &mut [u8], k: usize, page: &mut Page)
    requires sixteen { length list.old ≡ 1024 }
    requires room { RoomFor 84 page.old }
    requires number { k < 10000 }
    ensures { Fed (state_of table.old list.old) k text.now
        (state_of table.new list.new) page.old page.new }
{
    answer(text, table, list, k, page);
    page.put(b"\n");
}

// A table of N bytes and a list of 16 flows, for a caller that has none to lend.
#[derive(Drop)]
pub struct Board<const N: usize> {
    pub table: [u8; N],
    pub list: [u8; 1024],
}

impl<const N: usize> Board<N> {
    // All cells free, all flows closed.
    pub fn empty() -> Board<N>
        ensures table { result.table ≡ replicate N 0 }
        ensures list { result.list ≡ replicate 1024 0 }
    {
        Board {
            table: [0; N],
            list: [0; 1024],
        }
    }

    // Line k with its text and a line feed.
    pub fn line(&mut self, text: &[u8], k: usize, page: &mut Page)
        requires { RoomFor 84 page.old × (k < 10000) }
        ensures { Fed (state self.old) k text.now (state self.new) page.old page.new }
    {
        line(text, &mut self.table, &mut self.list, k, page)
    }
}
