// Checks a case and its log: reads the two in one frame from standard input, and writes the report to standard output.
#![tactic(auto)]

use checker::{LEAST_BUFFER, check_frame};
use std::io;
use std::io::{Read, Write};

fn main(rt: HostRuntime) -> io::Result<()> {
    let mut input = Vec::new(rt.alloc());
    let mut stdin = rt.stdin();
    stdin.read_to_end(&mut input)?;
    let mut report = [0; LEAST_BUFFER];
    let n = check_frame(input.as_slice(), &mut report);
    let mut stdout = rt.stdout();
    stdout.write_all(&report[0..n])?;
    stdout.flush()
}
