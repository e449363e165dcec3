// What a whole check comes to.
ghost use Rattle.report.specs.Buffers.{Written};
ghost use Rattle.report.specs.Lines.{lines};
ghost use Rattle.report.specs.Views.{outcome_of};

use crate::lines::{write_arrangement, write_refused};
use crate::numbers::write_bytes;
use claims::arrangement::Arrangement;
use files::Stop;

// A report is written to no shorter buffer.
pub const LEAST_BUFFER: usize = 2048;

// A verdict, or the file, by its number, in which something is refused, and where. Files are numbered from 1; 0 is none.
// The file is a number, since a type of the two files would ask more of callers than any number does.
#[derive(Clone, Copy)]
pub enum Outcome {
    Impossible,
    Possible(Arrangement),
    Undecided,
    Refused { file: u8, stop: Stop },
}

impl Outcome {
    // Writes the report to the front of the buffer, and says how many bytes it took: none where the buffer is too short,
    // since that is the number which the C interface gives.
    pub fn write(&self, report: &mut [u8]) -> usize
        ensures { Written (lines (outcome_of self.now)) report.old result report.new }
    {
        if report.len() < LEAST_BUFFER {
            return 0;
        }
        match self {
            Outcome::Impossible => write_bytes(report, b"impossible\n"),
            Outcome::Possible(arrangement) => write_arrangement(report, arrangement),
            Outcome::Undecided => write_bytes(report, b"none\n"),
            Outcome::Refused { file, stop } => write_refused(report, *file, stop),
        }
    }
}
