// The listing program's work: from the bytes that it reads to the bytes that it prints. Table and
// list start empty; every line is read, carried out and answered before the next (`answering`).
#![tactic(auto)]

ghost use Rattle.grammar.specs.Listing.{Writes};
ghost use Rattle.answering.specs.Lines.{state};
ghost use Rattle.listing.specs.Runs.{Room, Ran};

use answering::Board;
use texts::Page;

// The bytes of the listing's table: 64 for each of 16 channels.
const TABLE: usize = 1024;

// All lines of the input.
fn run(input: &[u8], board: &mut Board<TABLE>, page: &mut Page)
    requires { Room input.now page.old }
    ensures { Ran input.now (state board.old) page.old page.new }
{
    let mut rest = input;
    let mut k = 1;
    while let Some((line, others)) = reading::next_line(rest) {
        board.line(line, k, page);
        rest = others;
        k += 1;
    }
}

// The longest input that is listed.
const LONGEST: usize = 4096;

// What the program prints for an input, at the start of `out`; how many bytes that is. Where `out`
// has no room for 65,536 bytes it is left alone.
pub fn list(input: &[u8], out: &mut [u8]) -> usize
    ensures { Writes input.now out.old out.new result }
{
    if out.len() < 65536 {
        return 0;
    }
    let mut page = Page { out, len: 0 };
    if LONGEST < input.len() {
        page.put(b"input too long\n");
        return page.len;
    }
    let mut board = Board::<TABLE>::empty();
    run(input, &mut board, &mut page);
    page.len
}
