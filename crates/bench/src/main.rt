// Prints the line of one beacon: raw bytes from standard input, or from the file that the only argument names (docs/PROGRAMS.md).
#![tactic(auto)]

ghost use Rattle.std.specs.Prelude.{◌≤◌, length};

use frame_program::{Lines, Program};

// The line of a beacon.
struct Beacons;

impl Lines for Beacons {
    fn line(&self, frame: &[u8], buffer: &mut [u8]) -> usize {
        text_line::bench_line(frame, buffer)
    }
}

fn main(rt: HostRuntime) {
    let program = Program {
        rt: &rt,
        errors: &rt.stderr(),
        name: b"bench",
    };
    let _ = program.run(&Beacons, &mut [0u8; text_line::ROOM]);
}
