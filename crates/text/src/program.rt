// What a program does around its answer: it looks for an argument, fills a room with what comes in, and hands the answer over.
// Each `main` calls these itself: a bound on a closure can't name the lengths of its room and its answer.
ghost use Rattle.std.specs.Prelude.{◌≡◌, ◌≤◌, length, take};
ghost use Rattle.std.specs.Io.KnownBytes.{Consumes};

use std::env::FillError;
use std::io::{ErrorKind, Read};
use std::rt::Env;

// The first n bytes, or all where there are fewer.
pub fn first(bytes: &[u8], n: usize) -> &[u8]
    ensures { result.now ≡ take n bytes.now }
{
    &bytes[..n.min(bytes.len())]
}

// Reads until the room is full or the input ends, and returns how many bytes came: the next ones of the input, none of them lost.
// A read that a signal interrupts is made again, and one that fails counts as the end.
pub fn fill<R: Read>(reader: &mut R, room: &mut [u8]) -> usize
    ensures most { result ≤ length room.new }
    ensures bytes { Consumes (R.remaining reader.old) (R.remaining reader.new) (take result room.new) }
{
    let mut came = 0;
    for _ in 0..u64::MAX {
        if came == room.len() {
            break;
        }
        match reader.read(&mut room[came..]) {
            Ok(0) => break,
            Ok(n) => came += n,
            Err(e) => {
                if e.kind() != ErrorKind::Interrupted {
                    break;
                }
            }
        }
    }
    came
}

// Whether the program has an argument of this number; the first after its name is 1.
pub fn has_argument(rt: &HostRuntime, number: usize) -> bool {
    !matches!(rt.arg(number, &mut [0u8; 1]), Err(FillError::NotPresent))
}

// Writes the answer to standard output, at once. Where that does not take it, one line on standard error says so; where it is a
// pipe that nobody reads any more, nothing is said.
pub fn deliver(rt: &HostRuntime, program: &str, answer: &[u8]) {
    if let Err(e) = rt.write_all(answer) {
        if e.kind() != ErrorKind::BrokenPipe {
            let _ = eprintln!(rt; "{program}: standard output did not take the answer");
        }
    }
}
