// planwiden: reads plans of 24 bytes from standard input, at most 1,000, and writes them as plans of 40 bytes. Of a longer input,
// or one that ends inside a plan, it prints REFUSED 11 and nothing else. Any bytes of any length get an answer, which `answer`
// makes; here bytes come in and go out.
#![tactic(auto)]

mod answer;

use answer::{ROOM, TEXT, answer};
use text::program::{deliver, fill, has_argument};

fn main(rt: HostRuntime) {
    if has_argument(&rt, 1) {
        let _ = rt.eprintln(
            "usage: planwiden < old > new\nturns plans of 24 bytes into plans of 40 bytes; see man planwiden",
        );
        return;
    }
    let mut space = [0; ROOM];
    let came = fill(&mut rt.stdin(), &mut space);
    let mut text = [0; TEXT];
    let n = answer(&space, came, &mut text);
    deliver(&rt, "planwiden", &text[..n]);
}
