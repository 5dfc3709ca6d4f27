// What a program of two frames needs: each frame comes from the file that its argument names, and a hyphen alone stands for standard input.
ghost use Rattle.std.specs.Prelude.{◌≡◌, ◌≤◌, length, IfOk};

use crate::{Program, Told};
use std::fmt::InlineText;
use std::io::{Input, IsTerminal};
use std::rt::{Env, Files};

// The places of the two arguments, and how many there are with the program's own name.
const FIRST: usize = 1;

const SECOND: usize = 2;

const COUNT: usize = 3;
// How the program is called, behind its name.
const CALLED: &str = " GOOD BAD; - for one of them is standard input\n";

// Tells that there are so many arguments, and how the program is called.
fn wrong_count<R, E: Print>(program: &Program<R, E>, count: usize) -> Told {
    let name = program.name;
    let digits = InlineText::<20>::of(count);
    program.tell(&[
        name,
        b": arguments: ",
        digits.as_str().as_bytes(),
        b", where 2 are needed\nusage: ",
        name,
        CALLED.as_bytes(),
    ]);
    Told
}

// Tells that both arguments are standard input, and how the program is called.
fn one_input<R, E: Print>(program: &Program<R, E>) -> Told {
    let name = program.name;
    program.tell(&[
        name,
        b": -: standard input is one frame\nusage: ",
        name,
        CALLED.as_bytes(),
    ]);
    Told
}

// Whether the argument at a place is the hyphen that stands for standard input. A longer one that begins with a hyphen is unknown.
fn is_input<R: Env, E: Print>(program: &Program<R, E>, place: usize) -> Result<bool, Told> {
    let mut space = io::buffer();
    let Ok(length) = program.rt.arg(place, &mut space) else {
        return Ok(false);
    };
    let argument = &space[..length];
    if length > 1 && argument.starts_with(b"-") {
        return Err(program.unknown(argument, CALLED.as_bytes()));
    }
    Ok(argument.starts_with(b"-"))
}

// Looks whether there are two arguments that name frames, of which at most one is standard input.
fn look<R: Env, E: Print>(program: &Program<R, E>) -> Result<(), Told> {
    let count = program.arg_count();
    if count != COUNT {
        return Err(wrong_count(program, count.saturating_sub(1)));
    }
    let first = is_input(program, FIRST)?;
    let second = is_input(program, SECOND)?;
    if first && second {
        return Err(one_input(program));
    }
    Ok(())
}

// Reads from what the argument at a place names.
fn take_one<R: Env + Files + Input, E: Print>(
    program: &Program<R, E>,
    place: usize,
    frame: &mut [u8],
) -> Result<usize, Told>
where
    R::Reader: IsTerminal,
    ensures { IfOk result (λ count. count ≤ length frame.old) }
{
    let mut space = io::buffer();
    let length = program
        .rt
        .arg(place, &mut space)
        .map_err(|error| program.no_argument(error))?;
    let argument = &space[..length];
    if argument == b"-".as_slice() {
        return program.take_input(&[b"\n"], frame);
    }
    program.take_file(argument, frame)
}

// Reads the first frame, after a look at both arguments, and answers how many bytes it has. Where it did not come in, that is told.
pub fn take_first<R: Env + Files + Input, E: Print>(
    program: &Program<R, E>,
    frame: &mut [u8],
) -> Result<usize, Told>
where
    R::Reader: IsTerminal,
    ensures { IfOk result (λ count. count ≤ length frame.old) }
{
    look(program)?;
    take_one(program, FIRST, frame)
}

// The same for the second frame, once the first was read.
pub fn take_second<R: Env + Files + Input, E: Print>(
    program: &Program<R, E>,
    frame: &mut [u8],
) -> Result<usize, Told>
where
    R::Reader: IsTerminal,
    ensures { IfOk result (λ count. count ≤ length frame.old) }
{
    take_one(program, SECOND, frame)
}

// Reads both frames, and answers how many bytes each has. Where one did not come in, that is told, and the second is not looked for where it
// is the first.
pub fn take<R: Env + Files + Input, E: Print>(
    program: &Program<R, E>,
    first: &mut [u8],
    second: &mut [u8],
) -> Result<(usize, usize), Told>
where
    R::Reader: IsTerminal,
    ensures first { IfOk result (λ counts. counts.0 ≤ length first.old) }
    ensures second { IfOk result (λ counts. counts.1 ≤ length second.old) }
{
    let one = take_first(program, first)?;
    let other = take_second(program, second)?;
    Ok((one, other))
}

// Prints the lines of two frames, and answers how many bytes they have. Equal records have no lines, which is told at a terminal.
pub fn print<R: Print + Files, E: Print + IsTerminal>(
    program: &Program<R, E>,
    lines: &[u8],
) -> Result<usize, Told>
    ensures { IfOk result (λ printed. printed ≡ length lines.now) }
{
    if lines.len() == 0 {
        if program.errors.is_terminal() {
            program.tell(&[program.name, b": equal\n"]);
        }
        return Ok(0);
    }
    program.print(lines)
}
