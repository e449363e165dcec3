// Calls carried out one by one.
use crate::pictures::picture;
use calculus::Theory;
use faults::SessionFault;
use session::replaying::Order;
use session::{Conflict, Permit, Session};
use std::alloc::Global;
use std::process::Abort;
use std::test::Fail;
use switches::Switches;

// A permit of another session: a token is tied to none.
fn spare_permit<R: Abort>(rt: &R) -> Permit {
    let mut spare: Session<Switches> = Session::new();
    spare.counts(0, 0).expect(rt, "no permit")
}

// Another session with a conflict open, and that conflict.
fn spare_conflict<R: Abort>(rt: &R) -> (Session<Switches>, Conflict) {
    let mut spare: Session<Switches> = Session::new();
    let permit = spare.counts(0, 0).expect(rt, "no permit");
    let stored = spare.rule(&permit, &[]);
    assert!(rt; stored.is_ok());
    let sealed = spare.seal(permit, 1);
    assert!(rt; sealed.is_ok());
    let conflict = spare.conflict(1).expect(rt, "no conflict");
    (spare, conflict)
}

// Opens a conflict, and lets its token go with a session that is left.
fn open<T: Theory>(session: &mut Session<T>, clause: u8) -> Result<(), SessionFault> {
    let conflict = session.conflict(clause)?;
    Session::<Switches>::new().leave(conflict);
    Ok(())
}

// Resolves, jumps or concedes with a conflict of another session, which goes with that session where it is left.
fn analyse<T: Theory, R: Abort>(
    rt: &R,
    session: &mut Session<T>,
    order: Order<'_>,
) -> Result<(), SessionFault> {
    let (spare, conflict) = spare_conflict(rt);
    let ended = match order {
        Order::Jump(literal) => session.jump(conflict, literal),
        Order::Concede => session.concede(conflict),
        Order::Resolve(number) => {
            let answer = session.resolve(&conflict, number);
            spare.leave(conflict);
            return answer;
        }
        _ => session.abandon_conflict(conflict),
    };
    match ended {
        Ok(()) => Ok(()),
        Err((held, fault)) => {
            spare.leave(held);
            Err(fault)
        }
    }
}

// Carries out a call by the session's own methods.
pub fn call<T: Theory, R: Abort>(
    rt: &R,
    session: &mut Session<T>,
    order: Order<'_>,
) -> Result<(), SessionFault> {
    match order {
        Order::Counts(switches, measures) => session.counts(switches, measures).map(|_| ()),
        Order::Declare(body) => session.declare(&spare_permit(rt), body),
        Order::Admit(body) => session.admit(body),
        Order::Rule(literals) => session.rule(&spare_permit(rt), literals),
        Order::Seal(denominator) => session
            .seal(spare_permit(rt), denominator)
            .map_err(|(_, fault)| fault),
        Order::Lemma(literals, hint) => session.lemma(literals, hint),
        Order::Choose(literal) => session.choose(literal),
        Order::Set(measure, numerator) => session.set(measure, numerator),
        Order::Propagate(clause, literal) => session.propagate(clause, literal),
        Order::Read(number) => session.read(number),
        Order::Conflict(clause) => open(session, clause),
        Order::Resolve(_) | Order::Jump(_) | Order::Concede => analyse(rt, session, order),
        Order::Claim => session.claim().map(|_| ()),
        Order::Abandon => session.abandon(),
    }
}

// A session that these calls lead to, each of which is taken.
pub fn led<T: Theory, R: Abort>(rt: &R, orders: &[Order]) -> Session<T> {
    let mut session = Session::new();
    for (place, order) in orders.iter().enumerate() {
        let answer = call(rt, &mut session, *order);
        assert_eq!(rt; answer, Ok(()), "call {place}");
    }
    session
}

// Each call is refused for its cause, which comes from its layer, and leaves the session as it was.
pub fn refused<T: Theory, R: Abort>(
    rt: &R,
    heap: Global,
    session: &mut Session<T>,
    refusals: &[(Order, u8, u8)],
) -> Result<(), Fail> {
    let before = picture(heap, session)?;
    for (place, (order, cause, layer)) in refusals.iter().enumerate() {
        let code = call(rt, session, *order)
            .err()
            .map(|fault| (fault.code().cause, fault.code().layer));
        assert_eq!(rt; code, Some((*cause, *layer)), "refusal {place}");
        assert_eq!(rt; picture(heap, session)?, before, "refusal {place}");
    }
    Ok(())
}
