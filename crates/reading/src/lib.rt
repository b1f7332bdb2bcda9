// Reading: the lines of a text one by one, and a line as a command. Whatever is not spelled exactly
// as document 01 says is no command: a word that is none, a number that is none, more than 16
// channels, anything after the last field.
#![tactic(auto)]

ghost use Rattle.std.specs.Prelude.{◌≡◌, ◌≤◌, ◌++◌, eqb, length, position};
ghost use Rattle.reading.specs.Meaning.{Next, path, Means};
ghost use Rattle.reading.specs.Verbs.{open_bytes, close_bytes};

use rules::{Demand, Path, Words};

// What a line asks for.
#[derive(Clone, Copy, Debug, PartialEq, Eq)]
pub enum Request {
    Open {
        flow: u16,
        demand: Demand,
        path: Path,
    },
    Close {
        flow: u16,
    },
    Report,
}

// Where a text has its first line feed, if it has one.
fn line_feed(text: &[u8]) -> Option<usize>
    ensures { result ≡ position (λ b. eqb b 10) text.now }
{
    text.iter().position(|b| *b == b'\n')
}

// The first line of a text, without its line feed, and the text behind it; none where there is no
// text.
pub fn next_line(text: &[u8]) -> Option<(&[u8], &[u8])>
    ensures { Next text.now result }
{
    if text.is_empty() {
        return None;
    }
    let Some(end) = line_feed(text) else {
        return Some((text, &[]));
    };
    Some((&text[..end], &text[end + 1..]))
}

// The path through the channels.
fn path_of(channels: &[u16]) -> Path
    requires { length channels.now ≤ 16 }
    ensures { result ≡ path channels.now }
{
    let mut entries = [0; 16];
    entries[..channels.len()].copy_from_slice(channels);
    Path {
        entries,
        len: channels.len(),
    }
}

// A line's fields behind `open`: the flow, words, deadline and channels.
fn opening(text: &[u8]) -> Option<Request>
    ensures { Means (open_bytes ++ text.now) result }
{
    let mut room = [0; 19];
    let [flow, words, deadline, channels @ ..] = decimals::fields(text, &mut room)? else {
        return None;
    };
    Some(Request::Open {
        flow: *flow,
        demand: Demand {
            words: Words(*words),
            deadline: *deadline,
        },
        path: path_of(channels),
    })
}

// A line's fields behind `close`: the flow.
fn closing(text: &[u8]) -> Option<Request>
    ensures { Means (close_bytes ++ text.now) result }
{
    let mut room = [0; 19];
    let [flow] = decimals::fields(text, &mut room)? else {
        return None;
    };
    Some(Request::Close { flow: *flow })
}

// A line, without its line feed, as a command.
pub fn command(line: &[u8]) -> Option<Request>
    ensures { Means line.now result }
{
    if let Some(fields) = line.strip_prefix(b"open") {
        return opening(fields);
    }
    if let Some(fields) = line.strip_prefix(b"close") {
        return closing(fields);
    }
    if line == b"report".as_slice() {
        return Some(Request::Report);
    }
    None
}
