// traywhy: tells why an expected record did not come up. It reads from standard input a plan, the expected record, symbols,
// doubts and nothing after, and prints the reason or the refusal, one of
//     ANSWER 400 200         it did: D, margin
//     OTHER 3                another record did: the lowest place at which the two marks differ, and a second line,
//     RECORD 3 1 2           its coefficients in order
//     NONE 37                no record is within the radius: D of the expected record less the radius
//     REFUSED 9
// Any bytes of any length get an answer, which `answer` makes; here bytes come in and go out.
#![tactic(auto)]

mod answer;
mod lines;

use answer::ROOM;
use text::program::{deliver, fill, has_argument};

fn main(rt: HostRuntime) {
    if has_argument(&rt, 1) {
        let _ = rt.eprintln(
            "usage: traywhy < input\ntells why the expected record did not come up; see man traywhy",
        );
        return;
    }
    let mut space = [0u8; ROOM];
    let came = fill(&mut rt.stdin(), &mut space);
    let text = answer::answer(&space, came);
    deliver(&rt, "traywhy", text.as_bytes());
}
