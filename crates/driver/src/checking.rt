// The whole check of a case and its log, over a theory.
ghost use Rattle.std.specs.Prelude.{◌≡◌};
ghost use Rattle.files.specs.declared.records.FileKind.TheVariants.{Case};
ghost use Rattle.verdicts.specs.Outcomes.{Told, after_case, checked, take_file, verdict_of};
ghost use Rattle.report.specs.Views.{outcome_of};
ghost use Rattle.session.specs.Views.{view};
ghost use Rattle.driver.specs.Holding.{Holds};
ghost use Rattle.driver.specs.declared.held.Held.TheVariants.{Nothing};

use crate::held::Held;
use crate::taking::{Room, take_file};
use calculus::Theory;
use files::{FileKind, MOST_CASE_BYTES};
use report::Outcome;
use session::Session;
use session::phase::Phase;

// What the session closed with; one that did not close decides nothing.
fn verdict<T: Theory>(session: &Session<T>) -> Outcome
    ensures { outcome_of result ≡ Told (verdict_of (view T.Theory.kind T.Theory.model session.now).phase) }
{
    match session.phase() {
        Phase::Impossible => Outcome::Impossible,
        Phase::Possible => Outcome::Possible(session.arrangement()),
        _ => Outcome::Undecided,
    }
}

// Takes the case to a session, and then, where all of it was taken, the log.
fn take_both<T: Theory>(session: &mut Session<T>, case: &[u8], log: &[u8]) -> (Held, Outcome)
    requires { Holds T.Theory.kind T.Theory.model Nothing session.old }
    ensures { outcome_of result.1 ≡ after_case T.Theory.kind log.now (take_file T.Theory.kind Case case.now (view T.Theory.kind T.Theory.model session.old)) }
{
    let mut room = [0; MOST_CASE_BYTES];
    let (held, taken) = take_file(session, Held::Nothing, FileKind::Case, case, &mut room);
    if let Err(stop) = taken {
        return (
            held,
            Outcome::Refused {
                file: FileKind::Case.number(),
                stop,
            },
        );
    }
    let (held, taken) = take_file(session, held, FileKind::Log, log, &mut room);
    match taken {
        Ok(()) => (held, verdict(session)),
        Err(stop) => (
            held,
            Outcome::Refused {
                file: FileKind::Log.number(),
                stop,
            },
        ),
    }
}

// Checks a case and its log: each record in turn is taken to a session, up to the first that is refused, and what the
// session gave out by then is given up with it.
pub fn check<T: Theory + Drop>(case: &[u8], log: &[u8]) -> Outcome
    ensures { outcome_of result ≡ checked T.Theory.kind case.now log.now }
{
    let mut session = Session::<T>::new();
    let (held, outcome) = take_both(&mut session, case, log);
    held.end(session);
    outcome
}
