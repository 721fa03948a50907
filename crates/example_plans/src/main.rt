// The calls for season plans at work: plan A of document 01, then with one byte changed; a half tray; a plan file; and plan A of
// the old form, widened. Each line says what was asked and the number that was answered; the file stdout has the numbers of the
// documents, and the first plan of a season.
#![tactic(auto)]

ghost use Rattle.std.specs.Prelude.{◌<◌};

use std::io;
use traymark::plans::{find_plan, traymark_check_plan, traymark_find_plan, traymark_widen_plans};

// Plan A: season 12, p 7, three rows, three columns, degree 1, points 1 2 4 each way. `example_marks` has it too, since each
// example is to be read alone.
const PLAN_A: [u8; 40] = [
    0, 12, 7, 3, 3, 1, 1, 2, 4, 0, 0, 0, 0, 0, 0, 0, 0, 0, 0, 0, 0, 0, 1, 2, 4, 0, 0, 0, 0, 0, 0,
    0, 0, 0, 0, 0, 0, 0, 0, 0,
];

fn main(rt: HostRuntime) -> io::Result<()> {
    line(&rt, "plan A", traymark_check_plan(&PLAN_A))?;
    line(&rt, "39 bytes", traymark_check_plan(&[0; 39]))?;
    changed(&rt, "byte 39 is 1", 39, 1)?;
    changed(&rt, "l p 9", 2, 9)?;
    changed(&rt, "no row", 3, 0)?;
    changed(&rt, "no column", 4, 0)?;
    changed(&rt, "l d 3", 5, 3)?;
    changed(&rt, "l row points 1 1 4", 7, 1)?;
    changed(&rt, "column points 1 1 4", 23, 1)?;
    changed(&rt, "byte 21 is 1", 21, 1)?;
    changed(&rt, "byte 37 is 1", 37, 1)?;
    half_trays(&rt)?;

    // Four records: season 11; 12 corrected, p 2 with the one point 0 each way; 12 as it was, with all else 0; 12 corrected once
    // more.
    let mut file = [0; 160];
    file[1] = 11;
    file[40..45].copy_from_slice(&[0, 12, 2, 1, 1]);
    file[81] = 12;
    file[120..125].copy_from_slice(&[0, 12, 2, 1, 1]);
    find(&rt, "season 12", &file, 12)?;
    find(&rt, "season 13", &file, 13)?;
    find(&rt, "season 12 in 159 bytes", &file[..159], 12)?;
    found(&rt, "season 12 with the corrected plan on top", &file)?;
    found(&rt, "season 12 with the faulty plan on top", &file[80..])?;
    widen(&rt)
}

// Plan A with two columns at the points 1 and 2, and degrees below and at the smaller side.
fn half_trays(rt: &impl Print) -> io::Result<()> {
    let mut plan = PLAN_A;
    plan[4] = 2;
    plan[24] = 0;
    line(rt, "two columns", traymark_check_plan(&plan))?;
    plan[5] = 2;
    line(rt, "two columns, d 2", traymark_check_plan(&plan))
}

// Plan A in 24 bytes: one n, one list of points. Widened it is plan A, and sound; half of it is refused.
fn widen(rt: &impl Print) -> io::Result<()> {
    let old = [
        0, 12, 7, 3, 1, 1, 2, 4, 0, 0, 0, 0, 0, 0, 0, 0, 0, 0, 0, 0, 0, 0, 0, 0,
    ];
    let mut plan = [0; 40];
    line(rt, "plan A widened", traymark_widen_plans(&old, &mut plan))?;
    line(rt, "its check", traymark_check_plan(&plan))?;
    line(
        rt,
        "half of it widened",
        traymark_widen_plans(&old[..12], &mut plan),
    )
}

// Plan A with one byte changed.
fn changed(rt: &impl Print, name: &str, i: usize, byte: u8) -> io::Result<()>
    requires { i < 40 }
{
    let mut plan = PLAN_A;
    plan[i] = byte;
    line(rt, name, traymark_check_plan(&plan))
}

// The number and the offset that C gets.
fn find(rt: &impl Print, name: &str, file: &[u8], season: u16) -> io::Result<()> {
    let mut offset = 0;
    let number = traymark_find_plan(file, season, &mut offset);
    println!(rt; "{name}: {number}, offset: {offset}")
}

// What the check says of the plan of season 12 that is found; where none is, of an empty part, 1.
fn found(rt: &impl Print, name: &str, file: &[u8]) -> io::Result<()> {
    let mut number = 0;
    line(
        rt,
        name,
        traymark_check_plan(find_plan(file, 12, &mut number)),
    )
}

fn line(rt: &impl Print, name: &str, number: u32) -> io::Result<()> {
    println!(rt; "{name}: {number}")
}
