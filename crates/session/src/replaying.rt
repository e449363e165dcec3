// A session's whole life: a list of calls, good and bad, carried out one after the other.
ghost use Rattle.std.specs.Prelude.{◌≡◌, map};
ghost use Rattle.calculus.specs.Calls.Call.{Concede as to_concede, Conflict as to_conflict, Jump as to_jump, Resolve as to_resolve};
ghost use Rattle.calculus.specs.Sound.{Guarantees};
ghost use Rattle.calculus.specs.Steps.{step, run};
ghost use Rattle.session.specs.Orders.{call_of};
ghost use Rattle.session.specs.Views.{view};

use super::{Conflict, Permit, Session};
use calculus::Theory;

// A call with its arguments. It is the like of the call that a record writes, but for its literals, which are bytes of
// the file there. One type over both would carry a parameter through every clause that names a call, and say no more.
#[derive(Clone, Copy)]
pub enum Order<'a> {
    Counts(u8, u8),
    Declare(&'a [u8]),
    Admit(&'a [u8]),
    Rule(&'a [i8]),
    Seal(u32),
    Lemma(&'a [i8], &'a [u8]),
    Choose(i8),
    Set(u8, i32),
    Propagate(u8, i8),
    Read(u8),
    Conflict(u8),
    Resolve(u8),
    Jump(i8),
    Concede,
    Claim,
    Abandon,
}

impl<T: Theory> Session<T> {
    fn open_conflict(&mut self, clause: u8)
        ensures { view T.Theory.kind T.Theory.model self.new ≡ (step T.Theory.kind (view T.Theory.kind T.Theory.model self.old) (to_conflict clause)).1 }
    {
        match self.conflict(clause) {
            Ok(Conflict(_)) => {}
            Err(_) => {}
        }
    }

    fn resolve_once(&mut self, number: u8)
        ensures { view T.Theory.kind T.Theory.model self.new ≡ (step T.Theory.kind (view T.Theory.kind T.Theory.model self.old) (to_resolve number)).1 }
    {
        let conflict = Conflict(0);
        let _ = self.resolve(&conflict, number);
        let Conflict(_) = conflict;
    }

    fn jump_once(&mut self, literal: i8)
        ensures { view T.Theory.kind T.Theory.model self.new ≡ (step T.Theory.kind (view T.Theory.kind T.Theory.model self.old) (to_jump literal)).1 }
    {
        match self.jump(Conflict(0), literal) {
            Ok(()) => {}
            Err((Conflict(_), _)) => {}
        }
    }

    fn concede_now(&mut self)
        ensures { view T.Theory.kind T.Theory.model self.new ≡ (step T.Theory.kind (view T.Theory.kind T.Theory.model self.old) to_concede).1 }
    {
        match self.concede(Conflict(0)) {
            Ok(()) => {}
            Err((Conflict(_), _)) => {}
        }
    }

    // Carries out a call, taken or refused, with tokens of its own.
    fn obey(&mut self, order: Order)
        ensures { view T.Theory.kind T.Theory.model self.new ≡ (step T.Theory.kind (view T.Theory.kind T.Theory.model self.old) (call_of order.entry)).1 }
    {
        match order {
            Order::Counts(switches, measures) => {
                let _ = self.counts(switches, measures);
            }
            Order::Declare(body) => {
                let _ = self.declare(&Permit(0), body);
            }
            Order::Admit(body) => {
                let _ = self.admit(body);
            }
            Order::Rule(literals) => {
                let _ = self.rule(&Permit(0), literals);
            }
            Order::Seal(denominator) => {
                let _ = self.seal(Permit(0), denominator);
            }
            Order::Lemma(literals, hint) => {
                let _ = self.lemma(literals, hint);
            }
            Order::Choose(literal) => {
                let _ = self.choose(literal);
            }
            Order::Set(measure, numerator) => {
                let _ = self.set(measure, numerator);
            }
            Order::Propagate(clause, literal) => {
                let _ = self.propagate(clause, literal);
            }
            Order::Read(number) => {
                let _ = self.read(number);
            }
            Order::Conflict(clause) => self.open_conflict(clause),
            Order::Resolve(number) => self.resolve_once(number),
            Order::Jump(literal) => self.jump_once(literal),
            Order::Concede => self.concede_now(),
            Order::Claim => {
                let _ = self.claim();
            }
            Order::Abandon => {
                let _ = self.abandon();
            }
        }
    }
}

// Makes a session and carries out the calls, with tokens of its own: what hands tokens out stands above. It stands for
// the state that the calculus gives, and that state keeps the guarantees.
pub fn replay<T: Theory + Drop>(orders: &[Order]) -> Session<T>
    ensures led { view T.Theory.kind T.Theory.model result ≡ run T.Theory.kind (map call_of orders.now) }
    ensures sound { Guarantees T.Theory.kind (view T.Theory.kind T.Theory.model result) }
{
    let mut session = Session::new();
    for order in orders {
        session.obey(*order);
    }
    session
}
