// Lists what a case and its log say: reads the two in one frame from standard input, takes each record to a session
// over the theory that the frame names, and writes a line for it, in words and numbers, with what the session did, up
// to the end or the first fault.
#![tactic(auto)]

mod lines;
mod taking;
mod telling;
mod words;

use calculus::Theory;
use driver::held::Held;
use faults::{FileFault, InputCause, SessionFault};
use files::{FileKind, Frame, Listing, MOST_CASE_BYTES, Record, Stop, read_all};
use lines::{Line, Refusal};
use piles::CongruentLinear;
use session::Session;
use std::io;
use std::io::Read;
use switches::Switches;
use taking::{is_closed, take};
use telling::Done;
use words::BodyWords;

// The line of a record, with what the session did; the answer is its refusal, if it refused.
fn write_line(
    rt: &HostRuntime,
    line: Line,
    done: Result<Done, SessionFault>,
) -> io::Result<Option<FileFault>> {
    match done {
        Ok(done) => {
            let body = BodyWords(line.call);
            println!(rt; "{line}{done}{body}")?;
            Ok(None)
        }
        Err(fault) => {
            println!(rt; "{line}")?;
            Ok(Some(FileFault::Session(fault)))
        }
    }
}

// The last line of a file; says whether all of it was read.
fn write_end(
    rt: &HostRuntime,
    kind: FileKind,
    count: usize,
    stop: Option<Stop>,
) -> io::Result<bool> {
    match stop {
        Some(stop) => {
            let refusal = Refusal {
                file: Some(kind),
                stop,
            };
            println!(rt; "{refusal}")?;
            Ok(false)
        }
        None => {
            let file = kind.number();
            println!(rt; "file {file}: {count} records")?;
            Ok(true)
        }
    }
}

// Where the lines go, the session that the records are taken to, room for the literals of one, and the denominator of the
// values.
#[derive(Drop)]
struct Lister<'a, T: Theory> {
    rt: &'a HostRuntime,
    session: Session<T>,
    room: [i8; MOST_CASE_BYTES],
    denominator: u32,
}

impl<T: Theory> Lister<'_, T> {
    // Takes a record to the session, and writes its line.
    fn write_record(
        &mut self,
        held: Held,
        kind: FileKind,
        record: &Record,
    ) -> (Held, io::Result<Option<FileFault>>) {
        match record.call(kind) {
            Ok(call) => {
                let line = Line {
                    kind,
                    number: record.number,
                    start: record.start,
                    call,
                };
                let (held, done) = take(
                    &mut self.session,
                    held,
                    call,
                    &mut self.room,
                    &mut self.denominator,
                );
                (held, write_line(self.rt, line, done))
            }
            Err(fault) => (held, Ok(Some(fault))),
        }
    }

    // A line for each record. The answer is the first record that is refused, if there is one.
    fn write_records(
        &mut self,
        mut held: Held,
        kind: FileKind,
        listing: &Listing,
    ) -> (Held, io::Result<Option<Stop>>) {
        for record in listing.records.as_slice() {
            let (next, written) = self.write_record(held, kind, record);
            held = next;
            match written {
                Ok(None) => {}
                Ok(Some(fault)) => {
                    let stop = Stop {
                        number: record.number,
                        byte: record.start,
                        fault,
                    };
                    return (held, Ok(Some(stop)));
                }
                Err(error) => return (held, Err(error)),
            }
        }
        (held, Ok(listing.stop))
    }

    // Lists one file, and says whether all of it was read.
    fn list(&mut self, held: Held, kind: FileKind, file: &[u8]) -> (Held, io::Result<bool>) {
        let listing = match read_all(self.rt.alloc(), kind, file) {
            Ok(listing) => listing,
            Err(error) => return (held, Err(error.into())),
        };
        let (held, written) = self.write_records(held, kind, &listing);
        match written {
            Ok(stop) => (held, write_end(self.rt, kind, listing.records.len(), stop)),
            Err(error) => (held, Err(error)),
        }
    }

    // Lists the case, and the log if all of the case was read.
    fn list_both(&mut self, frame: Frame) -> (Held, io::Result<bool>) {
        let (held, written) = self.list(Held::Nothing, FileKind::Case, frame.case);
        match written {
            Ok(true) => self.list(held, FileKind::Log, frame.log),
            _ => (held, written),
        }
    }
}

fn list_over<T: Theory + Drop>(rt: &HostRuntime, frame: Frame, name: &str) -> io::Result<()> {
    let theory = frame.theory;
    println!(rt; "theory {theory}: {name}")?;
    let mut lister = Lister {
        rt,
        session: Session::<T>::new(),
        room: [0; MOST_CASE_BYTES],
        denominator: 1,
    };
    let (held, written) = lister.list_both(frame);
    let Lister { session, .. } = lister;
    let is_closed = is_closed(&session);
    held.end(session);
    if written? && !is_closed {
        println!(rt; "none: the log ends unclosed")?;
    }
    Ok(())
}

// A refusal before any file is read, at number and byte 0.
fn refuse_frame(rt: &HostRuntime, fault: FileFault) -> io::Result<()> {
    let stop = Stop {
        number: 0,
        byte: 0,
        fault,
    };
    let refusal = Refusal { file: None, stop };
    println!(rt; "{refusal}")
}

fn list_frame(rt: &HostRuntime, frame: Frame) -> io::Result<()> {
    match frame.theory {
        1 => list_over::<Switches>(rt, frame, "switches only"),
        2 => list_over::<CongruentLinear>(rt, frame, "congruence over linear"),
        _ => refuse_frame(rt, FileFault::Input(InputCause::OutOfRange)),
    }
}

fn main(rt: HostRuntime) -> io::Result<()> {
    let mut input = Vec::new(rt.alloc());
    let mut stdin = rt.stdin();
    stdin.read_to_end(&mut input)?;
    match Frame::of(input.as_slice()) {
        Ok(frame) => list_frame(&rt, frame),
        Err(fault) => refuse_frame(&rt, fault),
    }
}
