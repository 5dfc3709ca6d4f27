// Prints the line of one acknowledgement: raw bytes from standard input, or from the file that the only argument names (docs/PROGRAMS.md).
#![tactic(auto)]

ghost use Rattle.std.specs.Prelude.{◌≤◌, length};

use frame_program::{Lines, Program};

// The line of an acknowledgement.
struct Acks;

impl Lines for Acks {
    fn line(&self, frame: &[u8], buffer: &mut [u8]) -> usize {
        text_ack::ack_line(frame, buffer)
    }
}

fn main(rt: HostRuntime) {
    let program = Program {
        rt: &rt,
        errors: &rt.stderr(),
        name: b"ack",
    };
    let _ = program.run(&Acks, &mut [0u8; text_ack::ROOM]);
}
