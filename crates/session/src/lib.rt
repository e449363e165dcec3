// A session over a theory: the sixteen calls of the calculus. Each call refuses what the calculus does not allow, and
// changes nothing then.
#![tactic(auto)]

ghost use Rattle.std.specs.Prelude.{◌≡◌};
ghost use Rattle.calculus.specs.Reached.{Reached};
ghost use Rattle.session.specs.Cores.{view as view_of_core};

use calculus::Theory;
use tables::clause::Clause;
use tables::store::Store;
use tables::trail::Trail;

mod analysing;
mod calling;
mod claiming;
pub mod counts;
mod drafting;
mod looking;
pub mod phase;
pub mod replaying;
mod searching;

use counts::Counts;
use phase::Phase;

// Leave to draft: given by counts, lent to declare and rule, and spent by seal.
#[derive(Drop)]
pub struct Permit(u8);

// A conflict under analysis: given by conflict, lent to resolve, and spent by jump, concede or abandon. It cannot be
// dropped; `leave` ends it too, but only together with the session.
pub struct Conflict(u8);

// What a session holds. Between two steps of a call it may stand for a state that no calls lead to.
#[derive(Drop)]
pub(crate) struct Core<T> {
    phase: Phase,
    counts: Counts,
    trail: Trail,
    store: Store,
    analysed: Clause,
    theory: T,
}

// A session over a theory. Calls lead to the state that it stands for, so that state keeps the guarantees.
#[derive(Drop)]
pub struct Session<T: Theory> {
    core: Core<T>,
    ghost reached: { Reached T.Theory.kind (view_of_core T.Theory.kind T.Theory.model core) },
}

impl<T: Theory> Session<T> {
    ghost use Rattle.calculus.specs.States.{fresh};
    ghost use Rattle.calculus.specs.Sound.{Guarantees, EveryRunSound};
    ghost use Rattle.session.specs.Views.{view};

    // A session as it begins. The law over every run of the calculus stands here: what holds after every list of calls.
    pub fn new() -> Self
        ensures state { view T.Theory.kind T.Theory.model result ≡ fresh T.Theory.kind }
        ensures law { EveryRunSound T.Theory.kind }
        ensures sound { Guarantees T.Theory.kind (view T.Theory.kind T.Theory.model result) }
    {
        Session {
            core: Core {
                phase: Phase::New,
                counts: Counts::new(),
                trail: Trail::new(),
                store: Store::new(),
                analysed: Clause::empty(),
                theory: T::begin(),
            },
        }
    }

    // What the law says of the state that the session stands for now.
    pub fn guaranteed(&self)
        ensures { Guarantees T.Theory.kind (view T.Theory.kind T.Theory.model self.now) }
    {}
}

impl<T: Theory + Drop> Session<T> {
    // Gives up the session together with the conflict that is open in it.
    pub fn leave(self, conflict: Conflict) {
        let Conflict(_) = conflict;
    }
}
