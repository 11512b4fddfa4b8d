// The cases of 01 that are left to programs, the extremes of each number, the causes of the calls, and pairs of causes in one call: an
// interpreter of the test vectors in `stdin`. README.md beside src/ says what each line means, what is printed, and which calls are not among
// them; `stdout` has what that must be, made by rust/reference/examples/cases.
#![tactic(auto)]

use crate::command::{Command, Fault, Numbers};
use crate::held::Held;
use arrayvec::ArrayVec;
use std::io;
use std::io::Read;

mod calls;
mod command;
mod held;

// A line: it is printed, and does what it says. Its numbers are read into those that are lent.
fn obey(rt: &impl Print, held: &mut Held, numbers: &mut Numbers, line: &[u8]) -> io::Result<()> {
    rt.write_all(line)?;
    match line {
        [] | [b'#' | b'\n', ..] => Ok(()),
        [b'>', text @ ..] => held.add_text(text),
        _ => match Command::parse(line, numbers) {
            Ok(command) => held.obey(rt, command),
            Err(Fault::Malformed) => rt.println("= malformed"),
        },
    }
}

// The most bytes of the input.
const INPUT_ROOM: usize = 131072;

// Reads 131,072 bytes at most: what is behind them is no part of the vectors.
fn main(rt: HostRuntime) -> io::Result<()> {
    let mut input: ArrayVec<u8, INPUT_ROOM> = ArrayVec::new();
    io::copy(&mut rt.stdin().take(INPUT_ROOM as u64), &mut input)?;
    let mut held = Held::new();
    let mut numbers = Numbers::new();
    for line in input.split_inclusive(|byte| *byte == b'\n') {
        obey(&rt, &mut held, &mut numbers, line)?;
    }
    Ok(())
}
