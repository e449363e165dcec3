// Every call taken, and what it leads to.
use crate::calling::{call, led};
use crate::cases::{CLASH, DRAFT};
use crate::pictures::{clauses, picture, trail};
use calculus::Theory;
use piles::CongruentLinear;
use session::Session;
use session::phase::Phase;
use session::replaying::Order;
use std::process::Abort;
use std::test::Fail;
use switches::Switches;

// Carries out calls that are all taken.
fn go<T: Theory, R: Abort>(rt: &R, session: &mut Session<T>, orders: &[Order]) {
    for (place, order) in orders.iter().enumerate() {
        let answer = call(rt, session, *order);
        assert_eq!(rt; answer, Ok(()), "call {place}");
    }
}

// Counts, rule, seal, choose, propagate, conflict, resolve, jump and concede, over switches only.
#[test]
fn impossible(rt: HostRuntime) -> Result<(), Fail> {
    let mut session: Session<Switches> = led(&rt, &CLASH);
    let heap = rt.alloc();
    assert_eq!(rt; trail(heap, &session)?.as_str(), "1@1 chosen, 2@1 by 3");
    assert_eq!(rt; session.analysed(), [-1, -2].as_slice());
    go(&rt, &mut session, &[Order::Resolve(2)]);
    assert_eq!(rt; session.analysed(), [-1].as_slice());
    go(&rt, &mut session, &[Order::Jump(-1)]);
    assert_eq!(rt; trail(heap, &session)?.as_str(), "-1@0 by 5");
    assert_eq!(rt;
        clauses(heap, &session)?.as_str(),
        "R 1 2;R 1 -2;R -1 2;R -1 -2; -1;"
    );
    go(
        &rt,
        &mut session,
        &[Order::Propagate(1, 2), Order::Conflict(2), Order::Concede],
    );
    assert_eq!(rt;
        picture(heap, &session)?.as_str(),
        "impossible, 3 switches, 0 measures over 1 | -1@0 by 5, 2@0 by 1 | R 1 2;R 1 -2;R -1 2;R -1 -2; -1; |  |"
    );
    Ok(())
}

// A jump to a level between: the first literal is kept, and the second follows at its level.
#[test]
fn learnt_at_a_lower_level(rt: HostRuntime) -> Result<(), Fail> {
    let mut session: Session<Switches> = led(
        &rt,
        &[
            Order::Counts(3, 0),
            Order::Rule(&[1, 2]),
            Order::Seal(1),
            Order::Choose(-1),
            Order::Choose(3),
            Order::Choose(-2),
            Order::Conflict(1),
            Order::Jump(2),
        ],
    );
    assert_eq!(rt;
        trail(rt.alloc(), &session)?.as_str(),
        "-1@1 chosen, 2@1 by 2"
    );
    go(&rt, &mut session, &[Order::Abandon]);
    assert!(rt; matches!(session.phase(), Phase::Undecided));
    Ok(())
}

// Declare, admit, lemma, set, read and claim, over congruence over linear. A reading stands at the level of its measures.
#[test]
fn possible(rt: HostRuntime) -> Result<(), Fail> {
    let mut session: Session<CongruentLinear> = led(&rt, &DRAFT);
    go(
        &rt,
        &mut session,
        &[
            Order::Rule(&[1, 4]),
            Order::Rule(&[1, 2]),
            Order::Seal(10),
            Order::Lemma(&[-3, 4, 5], &[1, 0, 0, 0, 1, 0, 0, 0, 1, 0, 0, 0, 1]),
            Order::Lemma(&[-6, 7], &[3, 1, 2]),
            Order::Set(2, 0),
            Order::Set(1, 100),
            Order::Read(4),
            Order::Read(3),
            Order::Read(5),
            Order::Set(3, 50),
            Order::Read(6),
            Order::Set(4, 0),
            Order::Read(7),
            Order::Choose(-1),
            Order::Propagate(2, 2),
        ],
    );
    assert_eq!(rt;
        trail(rt.alloc(), &session)?.as_str(),
        "m2=0@1, m1=100@2, 4@2 read, 3@2 read, 5@1 read, m3=50@3, -6@3 read, m4=0@4, 7@4 read, -1@5 chosen, 2@5 by 2"
    );
    assert_eq!(rt;
        clauses(rt.alloc(), &session)?.as_str(),
        "R 1 4;R 1 2; -3 4 5; -6 7;"
    );
    let arrangement = session.claim()?;
    assert_eq!(rt; arrangement.switches(), [false, true].as_slice());
    assert_eq!(rt; arrangement.numerators(), [100, 0, 50, 0].as_slice());
    assert_eq!(rt; arrangement.denominator(), 10);
    assert!(rt; matches!(session.phase(), Phase::Possible));
    Ok(())
}

// A jump where the values made both literals false: to the level below, where the literal is chosen. A reading of a lower
// level stays, though it was entered last.
#[test]
fn chosen_after_readings(rt: HostRuntime) -> Result<(), Fail> {
    let mut session: Session<CongruentLinear> = led(&rt, &DRAFT);
    go(
        &rt,
        &mut session,
        &[
            Order::Rule(&[4, 3]),
            Order::Seal(10),
            Order::Set(2, 0),
            Order::Set(1, 1000),
            Order::Read(4),
            Order::Read(3),
            Order::Read(5),
            Order::Conflict(1),
            Order::Jump(4),
        ],
    );
    assert_eq!(rt;
        trail(rt.alloc(), &session)?.as_str(),
        "m2=0@1, 5@1 read, 4@2 chosen"
    );
    assert_eq!(rt; clauses(rt.alloc(), &session)?.as_str(), "R 4 3; 4 3;");
    go(&rt, &mut session, &[Order::Abandon]);
    Ok(())
}

// A refused seal, jump or concede gives its token back, and with that token the next call is taken.
#[test]
fn tokens_come_back(rt: HostRuntime) -> Result<(), Fail> {
    let mut session: Session<Switches> = Session::new();
    let permit = session.counts(1, 0)?;
    session.rule(&permit, &[1])?;
    let Err((permit, _)) = session.seal(permit, 0) else {
        return Err(Fail::new("sealed over 0"));
    };
    session.seal(permit, 1).map_err(|(_, fault)| fault)?;
    session.choose(-1)?;
    let conflict = session.conflict(1)?;
    let Err((conflict, _)) = session.concede(conflict) else {
        return Err(Fail::new("conceded above level 0"));
    };
    let Err((conflict, _)) = session.jump(conflict, -1) else {
        return Err(Fail::new("jumped by another literal"));
    };
    match session.abandon_conflict(conflict) {
        Ok(()) => {
            assert!(rt; matches!(session.phase(), Phase::Undecided));
            Ok(())
        }
        Err((held, _)) => {
            session.leave(held);
            Err(Fail::new("not abandoned"))
        }
    }
}

// A session lies in 32 KiB.
#[test]
fn size(rt: HostRuntime) {
    assert!(rt; size_of::<Session<CongruentLinear>>() < 32_768);
}
