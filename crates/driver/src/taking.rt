// A file taken to a session, record by record.
ghost use Rattle.files.specs.Decoding.{call_of};
ghost use Rattle.driver.specs.Holding.{Holds};
ghost use Rattle.driver.specs.Taking.{HasRoom, TakesRecord, TakesFile};

use crate::held::Held;
use crate::records::order_of;
use calculus::Theory;
use faults::{FileFault, InputCause, SessionFault};
use files::{FileKind, MOST_CASE_BYTES, Reader, Record, Stop};
use session::Session;

// Room for the literals of one record: no record of a case is longer than the case, and one of a log counts its literals
// in a byte.
pub(crate) type Room = [i8; MOST_CASE_BYTES];

// Takes the call that a record writes to the session.
fn take_record<T: Theory>(
    session: &mut Session<T>,
    held: Held,
    kind: FileKind,
    entry: &Record,
    room: &mut Room,
) -> (Held, Result<(), FileFault>)
    requires holds { Holds T.Theory.kind T.Theory.model held session.old }
    requires room { HasRoom (call_of kind entry.now.kind entry.now.body.now) }
    ensures { TakesRecord T.Theory.kind T.Theory.model session.old (call_of kind entry.now.kind entry.now.body.now) result session.new }
{
    let call = match entry.call(kind) {
        Ok(call) => call,
        Err(fault) => return (held, Err(fault)),
    };
    let Some(order) = order_of(call, room) else {
        return (
            held,
            Err(FileFault::Session(SessionFault::Input(InputCause::BadClause))),
        );
    };
    let (held, done) = held.step(session, order);
    (held, done.map_err(FileFault::Session))
}

// Takes the records of a file to the session, up to its end or to the first that is refused.
pub(crate) fn take_file<T: Theory>(
    session: &mut Session<T>,
    mut held: Held,
    kind: FileKind,
    file: &[u8],
    room: &mut Room,
) -> (Held, Result<(), Stop>)
    requires { Holds T.Theory.kind T.Theory.model held session.old }
    ensures { TakesFile T.Theory.kind T.Theory.model session.old kind file.now result session.new }
{
    let mut reader = Reader::over(kind, file);
    if let Err(fault) = reader.open() {
        return (
            held,
            Err(Stop {
                number: 0,
                byte: 0,
                fault,
            }),
        );
    }
    loop {
        match reader.next() {
            Ok(Some(entry)) => {
                let (next, done) = take_record(session, held, kind, &entry, room);
                held = next;
                if let Err(fault) = done {
                    return (
                        held,
                        Err(Stop {
                            number: entry.number,
                            byte: entry.start,
                            fault,
                        }),
                    );
                }
            }
            Ok(None) => return (held, Ok(())),
            Err(fault) => return (held, Err(reader.stop(fault))),
        }
    }
}
