// One input that holds a case and its log.
ghost use Rattle.std.specs.Prelude.{◌≡◌};
ghost use Rattle.files.specs.Frames.{frame_view, framed};
ghost use Rattle.files.specs.Views.{in_file};

use crate::records::MOST_CASE_BYTES;
use faults::{FileFault, InputCause};
use numerals::unsigned_word;

// The number of a theory, a case and its log, the last two as parts of the input.
#[derive(Clone, Copy)]
pub struct Frame<'a> {
    pub theory: u8,
    pub case: &'a [u8],
    pub log: &'a [u8],
}

impl<'a> Frame<'a> {
    // Takes an input apart: a byte for the theory, four for the length of the case, the case, and then the log. As
    // `try_from` it would say no more.
    pub fn of(input: &'a [u8]) -> Result<Frame<'a>, FileFault>
        ensures { frame_view result ≡ in_file (framed input.now) }
    {
        let [theory, a, b, c, d, rest @ ..] = input else {
            return Err(FileFault::Input(InputCause::BadRecordLength));
        };
        let n = unsigned_word(*a, *b, *c, *d) as usize;
        if n > MOST_CASE_BYTES {
            return Err(FileFault::Input(InputCause::FileTooLong));
        }
        if n > rest.len() {
            return Err(FileFault::Input(InputCause::BadRecordLength));
        }
        let (case, log) = rest.split_at(n);
        Ok(Frame {
            theory: *theory,
            case,
            log,
        })
    }
}
