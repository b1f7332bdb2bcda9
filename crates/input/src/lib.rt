// Input: a reader's bytes into a room, and a program's arguments as text. Nothing is allocated.
#![tactic(auto)]

ghost use Rattle.std.specs.Prelude.{◌<◌, ◌≤◌, length, take, IfOk, IfSome};
ghost use Rattle.std.specs.Io.KnownBytes.{Consumes, IsAtEnd};

use std::env::FillError;
use std::io;
use std::io::Read;
use std::rt::Env;

// Reads to the end of the input, or until the room is full; how many bytes that is. They stand at
// the start of the room.
pub fn read_full<R: Read>(from: &mut R, room: &mut [u8]) -> io::Result<usize>
    ensures inside { IfOk result (λ n. n ≤ length room.new) }
    ensures bytes { IfOk result (λ n. Consumes (R.remaining from.old) (R.remaining from.new) (take n room.new)) }
    ensures end { IfOk result (λ n. n < length room.new → IsAtEnd (R.remaining from.new)) }
{
    let mut done = 0;
    while done < room.len() {
        let n = from.read(&mut room[done..])?;
        if n == 0 {
            return Ok(done);
        }
        done += n;
    }
    Ok(done)
}

// Argument k of the program, as text in the room; none past the last. One that is longer than the
// room, or no text, is an error.
pub fn argument<'a, E: Env>(env: &E, k: usize, room: &'a mut [u8]) -> io::Result<Option<&'a str>>
    ensures { IfOk result (λ o. IfSome o (λ s. length s.now ≤ length room.old)) }
{
    let n = match env.arg(k, room) {
        Ok(n) => n,
        Err(FillError::NotPresent) => return Ok(None),
        Err(FillError::TooLong) => return Err(io::Error::from(io::ErrorKind::InvalidInput)),
    };
    let text = str::from_utf8(&room[..n]).map_err(|_| io::Error::from(io::ErrorKind::InvalidData))?;
    Ok(Some(text))
}
