// Takes the calls of a case and its log to a session, and says what each did.
use crate::telling::Done;
use calculus::Theory;
use driver::held::Held;
use driver::records::order_of;
use faults::{InputCause, SessionFault};
use files::Call;
use session::Session;
use session::phase::Phase;
use tables::clause::Clause;

pub fn is_closed<T: Theory>(session: &Session<T>) -> bool {
    matches!(
        session.phase(),
        Phase::Impossible | Phase::Possible | Phase::Undecided
    )
}

// Takes one call: what is held goes in, and what is held then comes out. No record of a case or a log writes more
// literals than there is room for. The denominator is that of the values, once it is sealed.
pub fn take<T: Theory>(
    session: &mut Session<T>,
    held: Held,
    call: Call,
    room: &mut [i8],
    denominator: &mut u32,
) -> (Held, Result<Done, SessionFault>) {
    let Some(order) = order_of(call, room) else {
        return (held, Err(SessionFault::Input(InputCause::BadClause)));
    };
    let (held, taken) = held.step(session, order);
    if let (Ok(()), Call::Seal(sealed)) = (&taken, call) {
        *denominator = sealed;
    }
    let divisor = *denominator;
    (held, taken.map(|()| done_by(session, call, divisor)))
}

// What a call did that was taken, seen on the session that it left.
fn done_by<T: Theory>(session: &Session<T>, call: Call, denominator: u32) -> Done {
    match call {
        Call::Counts { .. } => Done::Counted,
        Call::Declare(_) => Done::Declared,
        Call::Admit(_) => Done::Admitted(
            usize::from(session.switches()) + usize::from(session.theory().atoms()),
        ),
        Call::Rule(_) => Done::Stored(session.store().len()),
        Call::Seal(_) => Done::Sealed,
        Call::Lemma { .. } => Done::Vouched(session.store().len()),
        Call::Choose(_) | Call::Set { .. } | Call::Propagate { .. } | Call::Read(_) => {
            entered(session, denominator)
        }
        Call::Conflict(_) => Done::Opened(open_clause(session)),
        Call::Resolve(_) => Done::Resolved(open_clause(session)),
        Call::Jump(_) => jumped(session),
        Call::Concede => Done::Impossible,
        Call::Claim => Done::Possible(session.arrangement()),
        Call::Abandon => Done::Undecided,
    }
}

// What has just entered the trail, as its last entry.
fn entered<T: Theory>(session: &Session<T>, denominator: u32) -> Done {
    match session.trail().entries().last() {
        Some(entry) => Done::Entered {
            entry: *entry,
            denominator,
        },
        None => Done::Nothing,
    }
}

// The clause just learnt, and the last entry of the trail.
fn jumped<T: Theory>(session: &Session<T>) -> Done {
    match session.trail().entries().last() {
        Some(entry) => Done::Jumped {
            clause: session.store().len(),
            entry: *entry,
        },
        None => Done::Nothing,
    }
}

// The clause under analysis.
fn open_clause<T: Theory>(session: &Session<T>) -> Clause {
    Clause::of(session.analysed()).unwrap_or_default()
}
