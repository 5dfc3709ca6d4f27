// What the programs share that print what frames say: a frame comes in as raw bytes from standard input, or from a file that an argument
// names, and the text goes out (docs/PROGRAMS.md). What is not about a frame is told on standard error. No contract can say what is read or
// written. This file has what a program of one frame needs, src/two.rt what one of two frames does.
#![tactic(auto)]

ghost use Rattle.std.specs.Prelude.{◌≡◌, ◌≤◌, length, IfOk};

use std::env::FillError;
use std::fmt::InlineText;
use std::fs::{OpenFile, OpenOptions};
use std::io::{Error, ErrorKind, Input, IsTerminal, Read};
use std::rt::{Env, Files};

pub mod two;

// One byte more than the longest frame is read, so that a longer input is refused for its length.
pub const MOST_READ: usize = 126;
// The system's numbers for an argument that is not there, and for one that is too long.
const INVALID: i32 = 22;

const TOO_LONG: i32 = 36;
// The file that standard output is, where it is one.
const OUTPUT: &str = "/dev/stdout";

// Something went wrong, and was told on standard error.
#[derive(Clone, Copy)]
pub struct Told;

// A program: the system that it runs on, its standard error, and what it is called there.
#[derive(Drop)]
pub struct Program<'a, R, E> {
    pub rt: &'a R,
    pub errors: &'a E,
    pub name: &'a [u8],
}

// What a program of one frame prints of it.
pub trait Lines {
    // Puts a frame's line at the start of a buffer, and answers how many bytes the line has.
    fn line(&self, frame: &[u8], buffer: &mut [u8]) -> usize
        ensures { result ≤ length buffer.new };
}

// The system's reason alone, behind which std puts its number.
fn reason(text: &str) -> &str {
    match text.split_once(" (os error ") {
        Some((reason, _)) => reason,
        None => text,
    }
}

// Reads into the frame until it is full or the input ends, and answers how many bytes it read.
fn read_frame(input: &mut impl Read, frame: &mut [u8]) -> Result<usize, Error>
    ensures { IfOk result (λ count. count ≤ length frame.old) }
{
    for (length, place) in frame.iter_mut().enumerate() {
        let mut one = [0u8; 1];
        if input.read(&mut one)? == 0 {
            return Ok(length);
        }
        *place = one[0];
    }
    Ok(frame.len())
}

// Opens a file for reading. The names of std are text.
fn open<R: Files>(rt: &R, path: &[u8]) -> Result<R::File, Error> {
    match std::str::from_utf8(path) {
        Ok(path) => std::fs::open(rt, path),
        Err(_) => Err(Error::new(ErrorKind::InvalidFilename, "The name is not UTF-8")),
    }
}

// What a disk tells only later is a failed write too. A program cannot close its standard output and hear of it, so where that is a file,
// the disk is asked to take what was written.
fn settle(rt: &impl Files) -> Result<(), Error> {
    let is_file = match std::fs::metadata(rt, OUTPUT) {
        Ok(output) => output.is_file(),
        Err(_) => false,
    };
    if !is_file {
        return Ok(());
    }
    let Ok(output) = OpenOptions::new().write(true).open(rt, OUTPUT) else {
        return Ok(());
    };
    match output.sync_data() {
        Err(error) if error.kind() != ErrorKind::InvalidInput => Err(error),
        _ => Ok(()),
    }
}

// Writes text to standard output, to the end.
fn put(rt: &(impl Print + Files), text: &[u8]) -> Result<(), Error> {
    rt.write_all(text)?;
    settle(rt)
}

impl<'a, R, E: Print> Program<'a, R, E> {
    // Tells texts one behind the other.
    pub(crate) fn tell(&self, texts: &[&[u8]]) {
        for text in texts {
            let _ = self.errors.write_all(text);
        }
    }

    // Tells what failed, with the system's reason for it.
    pub(crate) fn fail(&self, what: &[u8], error: Error) -> Told {
        let text = InlineText::<256>::of(error);
        self.tell(&[
            self.name,
            b": ",
            what,
            b": ",
            reason(text.as_str()).as_bytes(),
            b"\n",
        ]);
        Told
    }

    // Tells that an argument is unknown, and how the program is called.
    pub(crate) fn unknown(&self, argument: &[u8], usage: &[u8]) -> Told {
        let name = self.name;
        self.tell(&[
            name,
            b": ",
            argument,
            b": unknown argument\nusage: ",
            name,
            usage,
        ]);
        Told
    }

    // Tells that an argument cannot be had.
    pub(crate) fn no_argument(&self, error: FillError) -> Told {
        let number = match error {
            FillError::NotPresent => INVALID,
            FillError::TooLong => TOO_LONG,
        };
        self.fail(b"argument", Error::from_raw_os_error(number))
    }

    // Each of these reads into the frame, and answers how many bytes it read. Where none came in, that is told.
    //
    // From an input, which goes by a name.
    fn take_from(&self, input: &mut impl Read, name: &[u8], frame: &mut [u8]) -> Result<usize, Told>
        ensures { IfOk result (λ count. count ≤ length frame.old) }
    {
        read_frame(input, frame).map_err(|error| self.fail(name, error))
    }
}

impl<'a, R: Files, E: Print> Program<'a, R, E> {
    pub(crate) fn take_file(&self, path: &[u8], frame: &mut [u8]) -> Result<usize, Told>
        ensures { IfOk result (λ count. count ≤ length frame.old) }
    {
        match open(self.rt, path) {
            Ok(mut file) => self.take_from(&mut file, path, frame),
            Err(error) => Err(self.fail(path, error)),
        }
    }
}

impl<'a, R: Input, E: Print> Program<'a, R, E>
where
    R::Reader: IsTerminal,
{
    // From standard input. At a terminal it tells what is awaited, and texts behind that.
    pub(crate) fn take_input(&self, ways: &[&[u8]], frame: &mut [u8]) -> Result<usize, Told>
        ensures { IfOk result (λ count. count ≤ length frame.old) }
    {
        let mut input = self.rt.reader();
        if input.is_terminal() {
            self.tell(&[
                self.name,
                b": standard input: a terminal; a frame is raw bytes",
            ]);
            self.tell(ways);
        }
        self.take_from(&mut input, b"standard input", frame)
    }
}

impl<'a, R: Env, E: Print> Program<'a, R, E> {
    // How many arguments the program was started with, its own name among them.
    pub(crate) fn arg_count(&self) -> usize {
        let mut space = io::buffer();
        for place in 0..usize::MAX {
            if let Err(FillError::NotPresent) = self.rt.arg(place, &mut space) {
                return place;
            }
        }
        usize::MAX
    }
}

impl<'a, R: Env + Files, E: Print> Program<'a, R, E> {
    // From the file that the last argument names, which is the only one if it is the first. One that begins with a hyphen names no file.
    fn take_argument(&self, last: usize, frame: &mut [u8]) -> Result<usize, Told>
        ensures { IfOk result (λ count. count ≤ length frame.old) }
    {
        let mut space = io::buffer();
        let length = self
            .rt
            .arg(last, &mut space)
            .map_err(|error| self.no_argument(error))?;
        let argument = &space[..length];
        if last > 1 || argument.starts_with(b"-") {
            return Err(self.unknown(
                argument,
                b" [FILE]; without FILE the frame comes from standard input\n",
            ));
        }
        self.take_file(argument, frame)
    }
}

impl<'a, R: Env + Files + Input, E: Print> Program<'a, R, E>
where
    R::Reader: IsTerminal,
{
    // Reads the frame of a program of one.
    pub fn take(&self, frame: &mut [u8]) -> Result<usize, Told>
        ensures { IfOk result (λ count. count ≤ length frame.old) }
    {
        let count = self.arg_count();
        if count < 2 {
            let name = self.name;
            return self.take_input(&[b": ", name, b" FILE, or ", name, b" <FILE\n"], frame);
        }
        self.take_argument(count - 1, frame)
    }
}

impl<'a, R: Print + Files, E: Print> Program<'a, R, E> {
    // Prints text, and answers how many bytes it has. A write that failed is told.
    pub fn print(&self, text: &[u8]) -> Result<usize, Told>
        ensures { IfOk result (λ printed. printed ≡ length text.now) }
    {
        match put(self.rt, text) {
            Ok(()) => Ok(text.len()),
            Err(error) => Err(self.fail(b"standard output", error)),
        }
    }
}

impl<'a, R: Env + Files + Input + Print, E: Print> Program<'a, R, E>
where
    R::Reader: IsTerminal,
{
    // Reads a frame, prints the line that is put for it into a lent buffer, and answers how many bytes the line has. What went wrong is told.
    pub fn run(&self, lines: &impl Lines, buffer: &mut [u8]) -> Result<usize, Told>
        ensures { IfOk result (λ printed. printed ≤ length buffer.old) }
    {
        let mut frame = [0u8; MOST_READ];
        let length = self.take(&mut frame)?;
        let end = lines.line(&frame[..length], buffer);
        self.print(&buffer[..end])
    }
}
