// One call: what is held goes in, and what is held then comes out.
ghost use Rattle.std.specs.Prelude.{◌≡◌};
ghost use Rattle.session.specs.Orders.{call_of};
ghost use Rattle.driver.specs.Holding.{Holds, Obeys, Advances, NotServed, SamePhase, back_held};
ghost use Rattle.driver.specs.declared.held.Held.TheVariants.{Nothing, Draft, Analysis};

use crate::held::Held;
use calculus::Theory;
use faults::{SessionFault, StateCause};
use session::replaying::Order;
use session::{Conflict, Permit, Session};

// The calls that need nothing in hand and give nothing out. Any other is refused: it does not serve now.
fn plain<T: Theory>(session: &mut Session<T>, order: Order) -> Result<(), SessionFault>
    ensures { NotServed T.Theory.kind T.Theory.model (call_of order.entry) session.old → Obeys T.Theory.kind T.Theory.model session.old (call_of order.entry) result session.new × SamePhase T.Theory.kind T.Theory.model session.old session.new }
{
    match order {
        Order::Admit(body) => session.admit(body),
        Order::Lemma(literals, hint) => session.lemma(literals, hint),
        Order::Choose(literal) => session.choose(literal),
        Order::Set(measure, numerator) => session.set(measure, numerator),
        Order::Propagate(clause, literal) => session.propagate(clause, literal),
        Order::Read(number) => session.read(number),
        _ => Err(SessionFault::State(StateCause::WrongPhase)),
    }
}

// Nothing is held: the session is new, searching or closed. Counts and conflict here, and seal below, give or take another
// type of token each: with the constructor as a parameter one function would need a contract on it.
fn search<T: Theory>(session: &mut Session<T>, order: Order) -> (Held, Result<(), SessionFault>)
    ensures { Holds T.Theory.kind T.Theory.model Nothing session.old → Advances T.Theory.kind T.Theory.model session.old (call_of order.entry) result session.new }
{
    match order {
        Order::Counts(switches, measures) => match session.counts(switches, measures) {
            Ok(permit) => (Held::Draft(permit), Ok(())),
            Err(fault) => (Held::Nothing, Err(fault)),
        },
        Order::Conflict(clause) => match session.conflict(clause) {
            Ok(conflict) => (Held::Analysis(conflict), Ok(())),
            Err(fault) => (Held::Nothing, Err(fault)),
        },
        Order::Claim => (Held::Nothing, session.claim().map(|_| ())),
        Order::Abandon => (Held::Nothing, session.abandon()),
        _ => (Held::Nothing, plain(session, order)),
    }
}

// A permit is held: the case is drafted.
fn draft<T: Theory>(
    session: &mut Session<T>,
    permit: Permit,
    order: Order,
) -> (Held, Result<(), SessionFault>)
    ensures { Holds T.Theory.kind T.Theory.model (Draft permit) session.old → Advances T.Theory.kind T.Theory.model session.old (call_of order.entry) result session.new }
{
    match order {
        Order::Declare(body) => {
            let done = session.declare(&permit, body);
            (Held::Draft(permit), done)
        }
        Order::Rule(literals) => {
            let done = session.rule(&permit, literals);
            (Held::Draft(permit), done)
        }
        Order::Seal(denominator) => match session.seal(permit, denominator) {
            Ok(()) => (Held::Nothing, Ok(())),
            Err((permit, fault)) => (Held::Draft(permit), Err(fault)),
        },
        _ => (Held::Draft(permit), plain(session, order)),
    }
}

// The conflict is spent, or it comes back with a fault.
fn unless_back(done: Result<(), (Conflict, SessionFault)>) -> (Held, Result<(), SessionFault>)
    ensures { result ≡ back_held Analysis done }
{
    match done {
        Ok(()) => (Held::Nothing, Ok(())),
        Err((conflict, fault)) => (Held::Analysis(conflict), Err(fault)),
    }
}

// A conflict is held: it is analysed.
fn analyse<T: Theory>(
    session: &mut Session<T>,
    conflict: Conflict,
    order: Order,
) -> (Held, Result<(), SessionFault>)
    ensures { Holds T.Theory.kind T.Theory.model (Analysis conflict) session.old → Advances T.Theory.kind T.Theory.model session.old (call_of order.entry) result session.new }
{
    match order {
        Order::Resolve(number) => {
            let done = session.resolve(&conflict, number);
            (Held::Analysis(conflict), done)
        }
        Order::Jump(literal) => unless_back(session.jump(conflict, literal)),
        Order::Concede => unless_back(session.concede(conflict)),
        Order::Abandon => unless_back(session.abandon_conflict(conflict)),
        _ => (Held::Analysis(conflict), plain(session, order)),
    }
}

impl Held {
    // Takes one call to the session: what is held goes in, and what is held then comes out. No struct holds the two, since
    // a conflict can be neither dropped nor left behind in one that is lent.
    pub fn step<T: Theory>(
        self,
        session: &mut Session<T>,
        order: Order,
    ) -> (Held, Result<(), SessionFault>)
        ensures { Holds T.Theory.kind T.Theory.model self session.old → Advances T.Theory.kind T.Theory.model session.old (call_of order.entry) result session.new }
    {
        match self {
            Held::Nothing => search(session, order),
            Held::Draft(permit) => draft(session, permit, order),
            Held::Analysis(conflict) => analyse(session, conflict, order),
        }
    }

    // Gives up the session together with what is held.
    pub fn end<T: Theory + Drop>(self, session: Session<T>) {
        match self {
            Held::Nothing | Held::Draft(_) => {}
            Held::Analysis(conflict) => session.leave(conflict),
        }
    }
}
