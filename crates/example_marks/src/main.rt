// Writing and measuring at work: cases a and k of document 01, plan A with the record 3 1 2; a strip of that plan, clean and with
// a cell unread and another wrong, in season 12 and in season 30; a record beyond the radius; a half tray; and refusals 6 to 9.
// Each line says what was asked, the number that was answered, and then the buffer or the reading; the file stdout has them as
// worked out by hand.
#![tactic(auto)]

use definitions::Reading;
use std::io;
use traymark::measure::{traymark_measure_mark, traymark_measure_strip};
use traymark::write::{traymark_write_mark, traymark_write_strip};

// Plan A: season 12, p 7, three rows, three columns, degree 1, points 1 2 4 each way. `example_plans` has it too, since each
// example is to be read alone.
const PLAN_A: [u8; 40] = [
    0, 12, 7, 3, 3, 1, 1, 2, 4, 0, 0, 0, 0, 0, 0, 0, 0, 0, 0, 0, 0, 0, 1, 2, 4, 0, 0, 0, 0, 0, 0,
    0, 0, 0, 0, 0, 0, 0, 0, 0,
];

fn main(rt: HostRuntime) -> io::Result<()> {
    let record = [3, 1, 2];
    let mut mark = [9; 9];
    write(&rt, "a write 3 1 2", &record, &mut mark)?;
    measure(&rt, "measure it", &record, &mark)?;
    let mut photo = mark;
    photo[..3].fill(0);
    measure(&rt, "k first three cells 0", &record, &photo)?;
    measure(&rt, "measure 0 0 0", &[0; 3], &mark)?;
    strips(&rt)?;
    finer_doubts(&rt)?;
    half_tray(&rt)?;
    refusals(&rt)
}

// The same on one row: the record 3 1 at the row points 1 2 4.
fn strips(rt: &impl Print) -> io::Result<()> {
    let record = [3, 1];
    let mut strip = [9; 3];
    let number = traymark_write_strip(&PLAN_A, &record, &mut strip);
    written(rt, "write the strip 3 1", number, &strip)?;
    measured(
        rt,
        "measure it",
        traymark_measure_strip(&PLAN_A, &record, &strip, &[0; 3]),
    )?;
    measured(
        rt,
        "a cell unread, another wrong",
        traymark_measure_strip(&PLAN_A, &record, &[255, 5, 1], &[100, 0, 0]),
    )
}

// The strip with a cell unread and another wrong again: from season 30 on doubts are in 250ths.
fn finer_doubts(rt: &impl Print) -> io::Result<()> {
    let mut plan = PLAN_A;
    plan[1] = 30;
    measured(
        rt,
        "the same in season 30",
        traymark_measure_strip(&plan, &[3, 1], &[255, 5, 1], &[250, 0, 0]),
    )
}

// Three rows at the points 1 2 4, and two columns at 0 and 5: the same record in six cells, with a cell wrong.
fn half_tray(rt: &impl Print) -> io::Result<()> {
    let mut plan = PLAN_A;
    plan[4] = 2;
    plan[22..25].copy_from_slice(&[0, 5, 0]);
    let record = [3, 1, 2];
    let mut mark = [9; 6];
    let number = traymark_write_mark(&plan, &record, &mut mark);
    written(rt, "write 3 1 2 on a half tray", number, &mark)?;
    mark[0] = 6;
    measured(
        rt,
        "first cell 6",
        traymark_measure_mark(&plan, &record, &mark, &[0; 6]),
    )
}

// Refusals 6 to 9. The buffers of 9s stay as they were.
fn refusals(rt: &impl Print) -> io::Result<()> {
    let mut short = [9; 8];
    let six = traymark_write_mark(&PLAN_A, &[3, 1, 2], &mut short);
    written(rt, "8 bytes for the mark", six, &short)?;
    let mut photo = [0; 9];
    photo[4] = 7;
    measure(rt, "a symbol 7", &[3, 1, 2], &photo)?;
    photo[4] = 255;
    measure(rt, "unread with doubt 0", &[3, 1, 2], &photo)?;
    measure(rt, "measure 3 1 7", &[3, 1, 7], &[0; 9])?;
    let mut mark = [9; 9];
    write(rt, "write 3 1 7", &[3, 1, 7], &mut mark)
}

// Writes a record under plan A.
fn write(rt: &impl Print, name: &str, record: &[u8; 3], mark: &mut [u8; 9]) -> io::Result<()> {
    let number = traymark_write_mark(&PLAN_A, record, mark);
    written(rt, name, number, mark)
}

// Measures a record under plan A against a photograph with all doubts 0.
fn measure(rt: &impl Print, name: &str, record: &[u8; 3], photo: &[u8; 9]) -> io::Result<()> {
    measured(
        rt,
        name,
        traymark_measure_mark(&PLAN_A, record, photo, &[0; 9]),
    )
}

// A line: the number and the bytes of the buffer.
fn written(rt: &impl Print, name: &str, number: u32, bytes: &[u8]) -> io::Result<()> {
    print!(rt; "{name}: {number},")?;
    for byte in bytes {
        print!(rt; " {byte}")?;
    }
    rt.println("")
}

// A line: the number and the reading.
fn measured(rt: &impl Print, name: &str, reading: Reading) -> io::Result<()> {
    let Reading {
        number,
        cost,
        margin,
        changed,
        unread,
        class,
    } = reading;
    print!(rt; "{name}: {number}, D {cost}, margin {margin}")?;
    println!(rt; ", changed {changed}, unread {unread}, class {class}")
}
