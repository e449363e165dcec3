// Reads a whole file, to its end or its first fault.
ghost use Rattle.std.specs.Prelude.{◌≡◌, IfOk};
ghost use Rattle.files.specs.Laws.{Parts, Rebuilds};
ghost use Rattle.files.specs.Records.{read_file};
ghost use Rattle.files.specs.Views.{listing_view};

use crate::reading::Reader;
use crate::records::{FileKind, Record, Stop};
use std::alloc::{AllocError, Global};

// The records of a file up to its end, or up to where reading stopped.
#[derive(Drop)]
pub struct Listing<'a> {
    pub records: Vec<Record<'a>>,
    pub stop: Option<Stop>,
}

pub fn read_all<'a>(heap: Global, kind: FileKind, file: &'a [u8]) -> Result<Listing<'a>, AllocError>
    ensures reads { IfOk result (λ l. listing_view l ≡ read_file kind file.now) }
    ensures rebuilds { IfOk result (λ l. Rebuilds file.now (listing_view l)) }
    ensures parts { IfOk result (λ l. Parts file.now (listing_view l)) }
{
    let mut records = Vec::new(heap);
    let mut reader = Reader::over(kind, file);
    // a file that is refused whole, as the program refuses a frame: three lines each
    if let Err(fault) = reader.open() {
        return Ok(Listing {
            records,
            stop: Some(Stop {
                number: 0,
                byte: 0,
                fault,
            }),
        });
    }
    loop {
        match reader.next() {
            Ok(Some(record)) => records.push(record)?,
            Ok(None) => return Ok(Listing {
                records,
                stop: None,
            }),
            Err(fault) => return Ok(Listing {
                records,
                stop: Some(reader.stop(fault)),
            }),
        }
    }
}
