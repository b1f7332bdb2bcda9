// The listing program on a reader and a writer: what it reads and where it prints.
#![tactic(auto)]

ghost use Rattle.std.specs.Prelude.{◌≡◌, length, OnOk};
ghost use Rattle.console.specs.Printed.{Printed};

use std::io;
use std::io::{Read, Write};

// The longest input, and one byte more, by which a longer input is seen.
const INPUT: usize = 4097;

// The longest listing.
const LISTING: usize = 65536;

// Room for so many bytes.
fn zeros<const N: usize>() -> [u8; N]
    ensures { length result ≡ N }
{
    [0; N]
}

// Reads to the end of the input, or until it is too long, and prints the listing.
pub fn run<R: Read, W: Write>(from: &mut R, to: &mut W) -> io::Result<()>
    ensures { OnOk result (Printed (R.remaining from.old) (W.contents to.old) (W.contents to.new)) }
{
    let mut room = zeros::<INPUT>();
    let n = input::read_full(from, &mut room)?;
    let mut out = zeros::<LISTING>();
    let r = listing::list(&room[..n], &mut out);
    to.write_all(&out[..r])
}
