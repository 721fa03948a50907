// trayread: reads a photographed mark from standard input, a plan, then its symbols, then its doubts and nothing after, and
// prints the reading or the refusal. Two lines, as
//     READ 12 2 0 1 400 200      season, changed, unread, class, D, margin
//     RECORD 3 1 2               the coefficients in order
// or one, as REFUSED 10. Any bytes of any length get an answer, which `answer` makes; here bytes come in and go out.
#![tactic(auto)]

mod answer;
mod lines;

use answer::ROOM;
use text::program::{deliver, fill, has_argument};

fn main(rt: HostRuntime) {
    if has_argument(&rt, 1) {
        let _ = rt.eprintln(
            "usage: trayread < input\nreads a plan, symbols and doubts, and prints the reading or a refusal; see man trayread",
        );
        return;
    }
    let mut space = [0u8; ROOM];
    let came = fill(&mut rt.stdin(), &mut space);
    let text = answer::answer(&space, came);
    deliver(&rt, "trayread", text.as_bytes());
}
