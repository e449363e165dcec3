// A session's whole life: a list of calls, good and bad, carried out one after the other.
ghost use Rattle.std.specs.Prelude.{◌≡◌, map};
ghost use Rattle.calculus.specs.Sound.{Guarantees};
ghost use Rattle.calculus.specs.Steps.{run};
ghost use Rattle.session.specs.Views.{view};
ghost use Rattle.session.specs.Orders.{call_of};
ghost use Rattle.driver.specs.Holding.{Holds};

use crate::held::Held;
use calculus::Theory;
use session::Session;
use session::replaying::Order;

// Makes a session and carries out the calls. It stands for the state that the calculus gives, and that state keeps the
// guarantees. What the session gave out and did not get back comes with it: a permit while it drafts, a conflict while it
// analyses, and else nothing. (That of the session stands below, and makes tokens of its own: it could not promise this.)
pub fn replay<T: Theory + Drop>(orders: &[Order]) -> (Session<T>, Held)
    ensures led { view T.Theory.kind T.Theory.model result.0 ≡ run T.Theory.kind (map call_of orders.now) }
    ensures sound { Guarantees T.Theory.kind (view T.Theory.kind T.Theory.model result.0) }
    ensures held { Holds T.Theory.kind T.Theory.model result.1 result.0 }
{
    let mut session = Session::new();
    let mut held = Held::Nothing;
    for order in orders {
        let (next, _) = held.step(&mut session, *order);
        held = next;
    }
    (session, held)
}
