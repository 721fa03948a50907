// Photographed strips around the radius, read. Standard input is cases of 72 bytes: a plan, sixteen symbols, sixteen doubts, of
// which as many count as the plan has rows, n. Each line says p, n and d, the number, the reading, and the record. The file stdin
// has costs R - 1, R and R + 1, unread cells and doubts from 0 to the full doubt over several primes, in seasons before 30 and
// from 30 on; the file stdout is what another decoder makes of it.
#![tactic(auto)]

use definitions::Reading;
use std::io;
use text::program::fill;
use traymark::read::traymark_read_strip;

const SIZE: usize = 72;

fn main(rt: HostRuntime) -> io::Result<()> {
    for _ in 0..1000 {
        let mut case = [0; SIZE];
        if fill(&mut rt.stdin(), &mut case) < SIZE {
            return Ok(());
        }
        read(&rt, &case)?;
    }
    Ok(())
}

// One case. A plan of more than sixteen rows, or of a degree above 15, has no record of at most sixteen bytes.
fn read(rt: &impl Print, case: &[u8; SIZE]) -> io::Result<()> {
    let p = case[2];
    let n = usize::from(case[3]);
    let d = usize::from(case[5]);
    if n > 16 || d > 15 {
        return Ok(());
    }
    let symbols = 40 + n;
    let doubts = 56 + n;
    let mut record = [0; 16];
    print!(rt; "p {p} n {n} d {d}: ")?;
    tell(
        rt,
        &case[..40],
        &case[40..symbols],
        &case[56..doubts],
        &mut record[..=d],
    )
}

// Reads a strip and prints its line.
fn tell(
    rt: &impl Print,
    plan: &[u8],
    symbols: &[u8],
    doubts: &[u8],
    record: &mut [u8],
) -> io::Result<()> {
    let Reading {
        number,
        cost,
        margin,
        changed,
        unread,
        class,
    } = traymark_read_strip(plan, symbols, doubts, record);
    let margin = margin.unsigned_abs();
    print!(rt; "number {number}, D {cost}, margin {margin}")?;
    print!(rt; ", changed {changed}, unread {unread}, class {class},")?;
    coefficients(rt, record)
}

// The rest of a line: the bytes of the record's buffer.
fn coefficients(rt: &impl Print, record: &[u8]) -> io::Result<()> {
    for byte in record {
        print!(rt; " {byte}")?;
    }
    rt.println("")
}
