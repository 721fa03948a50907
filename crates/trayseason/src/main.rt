// trayseason: prints the season of a date. The date is the one argument, as 2026-11-15, and standard input is a file of season
// windows of 12 bytes, at most 64. It prints the season as a number or the refusal, as
//     30
//     REFUSED 16
// Any bytes of any length get an answer, which `answer` makes; here bytes come in and go out.
#![tactic(auto)]

mod answer;
mod date;

use answer::{ROOM, answer};
use date::{DATE_BYTES, is_dated};
use std::rt::Env;
use text::program::{deliver, fill, has_argument};

fn main(rt: HostRuntime) {
    // an argument that is missing or longer than a date is taken for an empty one
    let mut word = [0; DATE_BYTES];
    let length = rt.arg(1, &mut word).unwrap_or(0);
    let word = &word[..length];
    if has_argument(&rt, 2) || !is_dated(word) {
        let _ = rt.eprintln(
            "usage: trayseason YYYY-MM-DD < windows\nprints the season of the date, by a file of windows; see man trayseason",
        );
        return;
    }
    let mut space = [0; ROOM];
    let came = fill(&mut rt.stdin(), &mut space);
    deliver(&rt, "trayseason", answer(word, &space, came).as_bytes());
}
