// How the tokens of a session are used. A permit is lent to each rule and moved into seal; a conflict is lent to each
// resolution and ends on every path. The edits under does-not-build/ break this, and the compiler refuses them.
#![tactic(auto)]

use calculus::Theory;
use faults::SessionFault;
use session::Session;
use switches::Switches;

// Drafts two rules on one switch, and opens the search.
pub fn draft(session: &mut Session<Switches>) -> Result<(), SessionFault> {
    let permit = session.counts(1, 0)?;
    session.rule(&permit, &[1])?;
    session.rule(&permit, &[-1])?;
    session.seal(permit, 1).map_err(|(_, fault)| fault)
}

// Analyses a clause that is false, by one resolution, and concedes; else gives up.
pub fn refute(mut session: Session<Switches>, clause: u8, number: u8) -> bool {
    let Ok(conflict) = session.conflict(clause) else {
        return false;
    };
    if session.resolve(&conflict, number).is_err() {
        session.leave(conflict);
        return false;
    }
    match session.concede(conflict) {
        Ok(()) => true,
        Err((held, _)) => {
            session.leave(held);
            false
        }
    }
}
