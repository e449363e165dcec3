// Every call refused for each cause that it can give: the call, the cause, and its layer, 0 for the session itself.
use crate::calling::{call, led, refused};
use crate::cases::{CLASH, DRAFT};
use calculus::Theory;
use piles::CongruentLinear;
use session::Session;
use session::replaying::Order;
use std::alloc::Global;
use std::process::Abort;
use std::test::Fail;
use switches::Switches;

// All calls, with arguments as wrong as can be.
const ALL: [Order<'static>; 16] = [
    Order::Counts(200, 200),
    Order::Declare(&[]),
    Order::Admit(&[]),
    Order::Rule(&[0]),
    Order::Seal(0),
    Order::Lemma(&[0], &[]),
    Order::Choose(0),
    Order::Set(0, 0),
    Order::Propagate(0, 0),
    Order::Read(0),
    Order::Conflict(0),
    Order::Resolve(0),
    Order::Jump(0),
    Order::Concede,
    Order::Claim,
    Order::Abandon,
];

// All calls but those at these places are refused for the phase, whatever their arguments.
fn serve<R: Abort>(
    rt: &R,
    heap: Global,
    session: &mut Session<Switches>,
    places: &[usize],
) -> Result<(), Fail> {
    for (place, order) in ALL.iter().enumerate() {
        if !places.contains(&place) {
            refused(rt, heap, session, &[(*order, 20, 0)])?;
        }
    }
    Ok(())
}

#[test]
fn phases(rt: HostRuntime) -> Result<(), Fail> {
    let heap = rt.alloc();
    let sealed = [Order::Counts(1, 0), Order::Rule(&[]), Order::Seal(1)];
    let mut session = Session::new();
    serve(&rt, heap, &mut session, &[0])?;
    session = led(&rt, &[Order::Counts(1, 0)]);
    serve(&rt, heap, &mut session, &[1, 2, 3, 4])?;
    session = led(&rt, &sealed);
    serve(&rt, heap, &mut session, &[2, 5, 6, 7, 8, 9, 10, 14, 15])?;
    assert_eq!(rt; call(&rt, &mut session, Order::Conflict(1)), Ok(()));
    serve(&rt, heap, &mut session, &[11, 12, 13, 15])?;
    assert_eq!(rt; call(&rt, &mut session, Order::Concede), Ok(()));
    serve(&rt, heap, &mut session, &[])?;
    session = led(&rt, &[Order::Counts(1, 0), Order::Seal(1), Order::Claim]);
    serve(&rt, heap, &mut session, &[])?;
    session = led(&rt, &[Order::Counts(1, 0), Order::Seal(1), Order::Abandon]);
    serve(&rt, heap, &mut session, &[])
}

// Counts: 6, of the session or of the theory, which is linear in the pile's second layer.
#[test]
fn counts(rt: HostRuntime) -> Result<(), Fail> {
    let heap = rt.alloc();
    let mut pile: Session<CongruentLinear> = Session::new();
    refused(
        &rt,
        heap,
        &mut pile,
        &[
            (Order::Counts(128, 17), 6, 0),
            (Order::Counts(127, 17), 6, 2),
        ],
    )?;
    let mut session: Session<Switches> = Session::new();
    refused(&rt, heap, &mut session, &[(Order::Counts(1, 1), 6, 1)])
}

// Declare, admit, rule and seal: what a body, a clause or a denominator can be refused for.
#[test]
fn draft(rt: HostRuntime) -> Result<(), Fail> {
    let mut session: Session<CongruentLinear> = led(&rt, &DRAFT);
    let long = [1, 2, 3, 4, 5, 6, 7, -1, -2, -3, -4, -5, -6, -7, 1, 2, 3];
    refused(
        &rt,
        rt.alloc(),
        &mut session,
        &[
            (Order::Declare(&[]), 5, 2),
            (Order::Declare(&[4]), 6, 2),
            (Order::Declare(&[3, 7, 1, 1]), 5, 1),
            (Order::Declare(&[3, 7, 1, 5, 1]), 6, 1),
            (Order::Admit(&[]), 5, 2),
            (Order::Admit(&[9]), 6, 2),
            (Order::Rule(&[1, 1, 0]), 7, 0),
            (Order::Rule(&[-128]), 7, 0),
            (Order::Rule(&long), 8, 0),
            (Order::Rule(&[1, -1, 8]), 8, 0),
            (Order::Rule(&[1, 8]), 22, 0),
            (Order::Seal(0), 6, 0),
            (Order::Seal(1_000_001), 6, 0),
        ],
    )
}

// 32 applications, 127 numbers and 250 clauses leave no room, whatever the arguments.
#[test]
fn no_room(rt: HostRuntime) -> Result<(), Fail> {
    let heap = rt.alloc();
    let mut pile: Session<CongruentLinear> = led(&rt, &DRAFT);
    for _ in 2..32 {
        assert_eq!(rt;
            call(&rt, &mut pile, Order::Declare(&[3, 7, 1, 1, 2])),
            Ok(())
        );
    }
    refused(&rt, heap, &mut pile, &[(Order::Declare(&[3]), 21, 1)])?;
    let mut numbers: Session<Switches> = led(&rt, &[Order::Counts(127, 0)]);
    refused(&rt, heap, &mut numbers, &[(Order::Admit(&[]), 21, 0)])?;
    let mut full: Session<Switches> = led(&rt, &[Order::Counts(1, 0)]);
    for _ in 0..250 {
        assert_eq!(rt; call(&rt, &mut full, Order::Rule(&[1])), Ok(()));
    }
    refused(&rt, heap, &mut full, &[(Order::Rule(&[0]), 21, 0)])?;
    assert_eq!(rt; call(&rt, &mut full, Order::Seal(1)), Ok(()));
    refused(&rt, heap, &mut full, &[(Order::Lemma(&[0], &[]), 21, 0)])?;
    assert_eq!(rt; call(&rt, &mut full, Order::Choose(-1)), Ok(()));
    assert_eq!(rt; call(&rt, &mut full, Order::Conflict(1)), Ok(()));
    refused(&rt, heap, &mut full, &[(Order::Jump(0), 21, 0)])
}

// Lemma: as a rule, and then what the pile makes of the hint: its form, or no more than a no.
#[test]
fn lemma(rt: HostRuntime) -> Result<(), Fail> {
    let heap = rt.alloc();
    let mut session: Session<CongruentLinear> = led(&rt, &DRAFT);
    assert_eq!(rt; call(&rt, &mut session, Order::Seal(1)), Ok(()));
    let long = [1, 2, 3, 4, 5, 6, 7, -1, -2, -3, -4, -5, -6, -7, 1, 2, 3];
    refused(
        &rt,
        heap,
        &mut session,
        &[
            (Order::Lemma(&[1, 1, 0], &[]), 7, 0),
            (Order::Lemma(&[-128], &[]), 7, 0),
            (Order::Lemma(&long, &[]), 8, 0),
            (Order::Lemma(&[1, -1, 8], &[]), 8, 0),
            (Order::Lemma(&[1, 8], &[]), 22, 0),
            (Order::Lemma(&[-6, 7], &[]), 5, 2),
            (Order::Lemma(&[-6, 7], &[9]), 6, 2),
            (Order::Lemma(&[-6, 7], &[2]), 31, 2),
            (Order::Lemma(&[-6, 7], &[3, 1]), 5, 1),
            (Order::Lemma(&[-6, 7], &[3, 1, 3]), 6, 1),
            (Order::Lemma(&[7], &[3, 1, 2]), 31, 1),
        ],
    )?;
    let mut switches: Session<Switches> = led(&rt, &[Order::Counts(1, 0), Order::Seal(1)]);
    refused(
        &rt,
        heap,
        &mut switches,
        &[
            (Order::Lemma(&[1], &[]), 5, 1),
            (Order::Lemma(&[1], &[1]), 6, 1),
        ],
    )
}

// Choose, set, propagate, read and conflict, with one choice and one value on the trail.
#[test]
fn search(rt: HostRuntime) -> Result<(), Fail> {
    let heap = rt.alloc();
    let mut session: Session<CongruentLinear> = led(&rt, &DRAFT);
    for order in [
        Order::Rule(&[1, 4]),
        Order::Rule(&[3, 4]),
        Order::Rule(&[1, 5]),
        Order::Seal(10),
        Order::Choose(-1),
        Order::Set(2, 0),
    ] {
        assert_eq!(rt; call(&rt, &mut session, order), Ok(()));
    }
    refused(
        &rt,
        heap,
        &mut session,
        &[
            (Order::Choose(0), 7, 0),
            (Order::Choose(-128), 7, 0),
            (Order::Choose(8), 22, 0),
            (Order::Choose(1), 23, 0),
            (Order::Choose(5), 24, 0),
            (Order::Set(0, 0), 6, 0),
            (Order::Set(5, 0), 6, 0),
            (Order::Set(1, 1_000_000_001), 6, 0),
            (Order::Set(1, -1_000_000_001), 6, 0),
            (Order::Set(2, 1), 23, 0),
            (Order::Propagate(0, 0), 7, 0),
            (Order::Propagate(0, 4), 22, 0),
            (Order::Propagate(4, 4), 22, 0),
            (Order::Propagate(1, 8), 22, 0),
            (Order::Propagate(1, 1), 23, 0),
            (Order::Propagate(3, 5), 24, 0),
            (Order::Propagate(1, -4), 25, 0),
            (Order::Propagate(2, 4), 25, 0),
            (Order::Read(0), 22, 0),
            (Order::Read(200), 22, 0),
            (Order::Read(1), 23, 0),
            (Order::Read(2), 24, 0),
            (Order::Read(4), 24, 0),
            (Order::Conflict(0), 22, 0),
            (Order::Conflict(4), 22, 0),
            (Order::Conflict(1), 27, 0),
        ],
    )?;
    // the value 50 would make m1 < 50 readable and false
    assert_eq!(rt; call(&rt, &mut session, Order::Propagate(1, 4)), Ok(()));
    refused(&rt, heap, &mut session, &[(Order::Set(1, 500), 26, 0)])
}

// Resolve, jump and concede, with two literals at the top level that were not read.
#[test]
fn analysis(rt: HostRuntime) -> Result<(), Fail> {
    let heap = rt.alloc();
    let mut session: Session<Switches> = led(&rt, &CLASH);
    refused(
        &rt,
        heap,
        &mut session,
        &[
            (Order::Resolve(0), 22, 0),
            (Order::Resolve(4), 22, 0),
            (Order::Resolve(3), 28, 0),
            (Order::Resolve(1), 28, 0),
            (Order::Jump(0), 7, 0),
            (Order::Jump(-128), 7, 0),
            (Order::Jump(4), 22, 0),
            (Order::Jump(3), 28, 0),
            (Order::Jump(1), 28, 0),
            (Order::Jump(-1), 30, 0),
            (Order::Concede, 30, 0),
        ],
    )?;
    // a literal below the top, and one of level 0
    session = led(
        &rt,
        &[
            Order::Counts(2, 0),
            Order::Rule(&[1, 2]),
            Order::Seal(1),
            Order::Choose(-1),
            Order::Choose(-2),
            Order::Conflict(1),
        ],
    );
    refused(&rt, heap, &mut session, &[(Order::Jump(1), 30, 0)])?;
    session = led(
        &rt,
        &[
            Order::Counts(1, 0),
            Order::Rule(&[1]),
            Order::Rule(&[-1]),
            Order::Seal(1),
            Order::Propagate(1, 1),
            Order::Conflict(2),
        ],
    );
    refused(&rt, heap, &mut session, &[(Order::Jump(-1), 30, 0)])
}

// Clauses of 9 and of 10 literals around the switch 17: the resolvent would have 17.
#[test]
fn resolvents(rt: HostRuntime) -> Result<(), Fail> {
    let mut session: Session<Switches> = led(
        &rt,
        &[
            Order::Counts(18, 0),
            Order::Rule(&[17, 1, 2, 3, 4, 5, 6, 7, 8]),
            Order::Rule(&[-17, 9, 10, 11, 12, 13, 14, 15, 16, 18]),
            Order::Seal(1),
        ],
    );
    for literal in [-1, -2, -3, -4, -5, -6, -7, -8] {
        assert_eq!(rt; call(&rt, &mut session, Order::Choose(literal)), Ok(()));
    }
    assert_eq!(rt; call(&rt, &mut session, Order::Propagate(1, 17)), Ok(()));
    for literal in [-9, -10, -11, -12, -13, -14, -15, -16, -18] {
        assert_eq!(rt; call(&rt, &mut session, Order::Choose(literal)), Ok(()));
    }
    assert_eq!(rt; call(&rt, &mut session, Order::Conflict(2)), Ok(()));
    refused(
        &rt,
        rt.alloc(),
        &mut session,
        &[(Order::Resolve(17), 29, 0)],
    )
}

// Claim: a value for each measure, then the rules, then the theory: f(m1) = m2 and f(m3) = m4 with m1 = m3 alone.
#[test]
fn claim(rt: HostRuntime) -> Result<(), Fail> {
    let heap = rt.alloc();
    let mut session: Session<CongruentLinear> = led(&rt, &DRAFT);
    for order in [
        Order::Rule(&[1]),
        Order::Seal(10),
        Order::Set(1, 0),
        Order::Set(2, 0),
        Order::Set(3, 0),
    ] {
        assert_eq!(rt; call(&rt, &mut session, order), Ok(()));
    }
    refused(&rt, heap, &mut session, &[(Order::Claim, 32, 0)])?;
    assert_eq!(rt; call(&rt, &mut session, Order::Set(4, 10)), Ok(()));
    refused(&rt, heap, &mut session, &[(Order::Claim, 33, 0)])?;
    assert_eq!(rt; call(&rt, &mut session, Order::Choose(1)), Ok(()));
    refused(&rt, heap, &mut session, &[(Order::Claim, 34, 1)])
}
