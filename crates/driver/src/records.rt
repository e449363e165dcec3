// The records of a file, made into orders.
ghost use Rattle.std.specs.Prelude.{◌≡◌, length, Option, Some, None, cond, nat_le};
ghost use Rattle.std.specs.Option.{option_map};
ghost use Rattle.files.specs.Views.{call_view, literals as literals_of};
ghost use Rattle.session.specs.Orders.{call_of};
ghost use Rattle.driver.specs.Taking.{fitting};

use files::{Call, Literals};
use session::replaying::Order;

// Writes the literals to the front of the room that there is for them, if they all fit.
fn fill<'a>(room: &'a mut [i8], literals: Literals) -> Option<&'a [i8]>
    ensures { option_map (λ r. r.now) result ≡ cond (nat_le (length (literals_of literals.entry)) (length room.old)) (Some (literals_of literals.entry)) None }
{
    let n = literals.copy_to(room)?;
    Some(&room[0..n])
}

// The call, with its literals one to a signed byte, if there is room for them.
pub fn order_of<'a>(call: Call<'a>, room: &'a mut [i8]) -> Option<Order<'a>>
    ensures { option_map call_of result ≡ fitting (length room.old) (call_view call.entry) }
{
    let order = match call {
        Call::Counts { switches, measures } => Order::Counts(switches, measures),
        Call::Declare(body) => Order::Declare(body),
        Call::Admit(body) => Order::Admit(body),
        Call::Rule(literals) => Order::Rule(fill(room, literals)?),
        Call::Seal(denominator) => Order::Seal(denominator),
        Call::Lemma { literals, hint } => Order::Lemma(fill(room, literals)?, hint),
        Call::Choose(literal) => Order::Choose(literal),
        Call::Set { measure, numerator } => Order::Set(measure, numerator),
        Call::Propagate { clause, literal } => Order::Propagate(clause, literal),
        Call::Read(number) => Order::Read(number),
        Call::Conflict(clause) => Order::Conflict(clause),
        Call::Resolve(number) => Order::Resolve(number),
        Call::Jump(literal) => Order::Jump(literal),
        Call::Concede => Order::Concede,
        Call::Claim => Order::Claim,
        Call::Abandon => Order::Abandon,
    };
    Some(order)
}
