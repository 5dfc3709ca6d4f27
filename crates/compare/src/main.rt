// Prints in which fields two beacons differ: raw bytes from the two files that the arguments name (docs/PROGRAMS.md).
#![tactic(auto)]

use frame_program::{Program, Told, two};
use std::io::{Input, IsTerminal};
use std::rt::{Env, Files};

// Reads both frames, prints in what they differ, and answers how many bytes that has. What went wrong is told.
fn run<R: Env + Files + Input + Print, E: Print + IsTerminal>(
    program: &Program<R, E>,
) -> Result<usize, Told>
where
    R::Reader: IsTerminal,
{
    let mut first = [0u8; frame_program::MOST_READ];
    let mut second = [0u8; frame_program::MOST_READ];
    let (one, other) = two::take(program, &mut first, &mut second)?;
    let mut buffer = [0u8; text_compare::ROOM];
    let end = text_compare::compare_text(&first[..one], &second[..other], &mut buffer);
    two::print(program, &buffer[..end])
}

fn main(rt: HostRuntime) {
    let program = Program {
        rt: &rt,
        errors: &rt.stderr(),
        name: b"compare",
    };
    let _ = run(&program);
}
