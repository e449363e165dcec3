// Reads a file record by record, without copying any of it.
ghost use Rattle.std.specs.Prelude.{◌≡◌, ◌*◌, ◌≤◌, length, is_ok, if◌then◌else◌};
ghost use Rattle.files.specs.Records.{opened, entry_at, place_after, count_after};
ghost use Rattle.files.specs.Views.{in_file, step_view, stop_at, test_view};

use crate::records::{FileKind, Record, Stop};
use faults::{FileFault, InputCause};

// A place in a file, and how many records were handed out up to it.
#[derive(Drop)]
pub struct Reader<'a> {
    kind: FileKind,
    file: &'a [u8],
    place: usize,
    count: usize,
    ghost within: { place ≤ length file.now },
    ghost counted: { 3 * count ≤ place },
}

impl<'a> Reader<'a> {
    // A reader at the first byte of a file, which is not tested yet.
    pub fn over(kind: FileKind, file: &'a [u8]) -> Reader<'a>
        ensures kind { result.kind ≡ kind }
        ensures file { result.file.now ≡ file.now }
        ensures place { result.place ≡ 0 }
        ensures count { result.count ≡ 0 }
    {
        Reader {
            kind,
            file,
            place: 0,
            count: 0,
        }
    }

    // A fault at the next record: its number, from 1, and the byte where it starts.
    pub fn stop(&self, fault: FileFault) -> Stop
        ensures { result ≡ stop_at self.now.count self.now.place fault }
    {
        Stop {
            number: self.count + 1,
            byte: self.place,
            fault,
        }
    }

    // Tests the version byte and the length of the file, and goes to the first record.
    pub fn open(&mut self) -> Result<(), FileFault>
        ensures answer { test_view result ≡ in_file (opened self.old.kind self.old.file.now) }
        ensures kind { self.new.kind ≡ self.old.kind }
        ensures file { self.new.file.now ≡ self.old.file.now }
        ensures place { self.new.place ≡ (if is_ok result then 1 else self.old.place) }
        ensures count { self.new.count ≡ (if is_ok result then 0 else self.old.count) }
    {
        let [1, ..] = self.file else {
            return Err(FileFault::Input(InputCause::WrongVersion));
        };
        if self.file.len() > self.kind.most_bytes() {
            return Err(FileFault::Input(InputCause::FileTooLong));
        }
        self.place = 1;
        self.count = 0;
        Ok(())
    }

    // The next record, or nothing at the end of the file. A refusal leaves the reader where it was.
    pub fn next(&mut self) -> Result<Option<Record<'a>>, FileFault>
        ensures answer { step_view result ≡ in_file (entry_at self.old.count self.old.place self.old.file.now) }
        ensures kind { self.new.kind ≡ self.old.kind }
        ensures file { self.new.file.now ≡ self.old.file.now }
        ensures place { self.new.place ≡ place_after self.old.place (entry_at self.old.count self.old.place self.old.file.now) }
        ensures count { self.new.count ≡ count_after self.old.count (entry_at self.old.count self.old.place self.old.file.now) }
    {
        let bytes = &self.file[self.place..];
        let [high, low, rest @ ..] = bytes else {
            return if bytes.is_empty() {
                Ok(None)
            } else {
                Err(FileFault::Input(InputCause::BadRecordLength))
            };
        };
        let n = usize::from(u16::from_be_bytes([*high, *low]));
        if n == 0 || n > rest.len() {
            return Err(FileFault::Input(InputCause::BadRecordLength));
        }
        let record = Record {
            number: self.count + 1,
            start: self.place,
            kind: rest[0],
            body: &rest[1..n],
        };
        self.place += 2 + n;
        self.count += 1;
        Ok(Some(record))
    }
}
