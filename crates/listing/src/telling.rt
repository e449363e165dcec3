// What a call did, in words.
use claims::arrangement::Arrangement;
use std::fmt;
use tables::clause::Clause;
use tables::entry::{Entry, Origin};

// What the session did; behind what it took the words of the body follow.
#[derive(Drop)]
pub enum Done {
    Nothing,
    Counted,
    Declared,
    Admitted(usize),
    Stored(u8),
    Sealed,
    Vouched(u8),
    Entered { entry: Entry, denominator: u32 },
    Opened(Clause),
    Resolved(Clause),
    Jumped { clause: u8, entry: Entry },
    Impossible,
    Possible(Arrangement),
    Undecided,
}

// The literals of a clause in decimal, each with a blank before it.
#[derive(Drop)]
struct Open<'a>(&'a Clause);

// An entry of the trail, as the call that made it is answered.
#[derive(Drop)]
struct Entered {
    entry: Entry,
    denominator: u32,
}

// The entry that a jump made.
#[derive(Drop)]
struct Back(Entry);

// The switches and the values, as `s1 yes, m1 = 50/1`.
#[derive(Drop)]
struct Arranged<'a>(&'a Arrangement);

impl fmt::Display for Open<'_> {
    fn fmt<W: fmt::Write>(&self, f: &mut fmt::Formatter<W>) -> fmt::Result {
        let literals = self.0.literals();
        if literals.is_empty() {
            return write!(f, " the empty clause");
        }
        for literal in literals {
            write!(f, " {literal}")?;
        }
        Ok(())
    }
}

impl fmt::Display for Entered {
    fn fmt<W: fmt::Write>(&self, f: &mut fmt::Formatter<W>) -> fmt::Result {
        let denominator = self.denominator;
        match self.entry {
            Entry::Value {
                measure,
                numerator,
                level,
            } => write!(f, "m{measure} = {numerator}/{denominator} at level {level}"),
            Entry::Literal {
                literal,
                level,
                origin,
            } => match origin {
                Origin::Chosen => write!(f, "decided at level {level}"),
                Origin::Propagated(clause) => write!(
                    f,
                    "entered at level {level}, by clause {clause}"
                ),
                Origin::Read => {
                    let number = literal.unsigned_abs();
                    let truth = literal > 0;
                    write!(f, "atom {number} is {truth}, at level {level}")
                }
            },
        }
    }
}

impl fmt::Display for Back {
    fn fmt<W: fmt::Write>(&self, f: &mut fmt::Formatter<W>) -> fmt::Result {
        match self.0 {
            Entry::Literal {
                literal,
                level,
                origin: Origin::Chosen,
            } => {
                let target = level.saturating_sub(1);
                write!(
                    f,
                    "back to level {target}, {literal} is decided at level {level}"
                )
            }
            Entry::Literal { literal, level, .. } => write!(
                f,
                "back to level {level}, {literal} follows"
            ),
            Entry::Value { level, .. } => write!(f, "back to level {level}"),
        }
    }
}

impl fmt::Display for Arranged<'_> {
    fn fmt<W: fmt::Write>(&self, f: &mut fmt::Formatter<W>) -> fmt::Result {
        let denominator = self.0.denominator();
        let mut sign = "";
        for (i, yes) in self.0.switches().iter().enumerate() {
            let number = i + 1;
            let answer = if *yes { "yes" } else { "no" };
            write!(f, "{sign} s{number} {answer}")?;
            sign = ",";
        }
        for (i, numerator) in self.0.numerators().iter().enumerate() {
            let number = i + 1;
            write!(f, "{sign} m{number} = {numerator}/{denominator}")?;
            sign = ",";
        }
        Ok(())
    }
}

impl fmt::Display for Done {
    fn fmt<W: fmt::Write>(&self, f: &mut fmt::Formatter<W>) -> fmt::Result {
        match self {
            Done::Nothing => Ok(()),
            Done::Counted => write!(f, " - taken"),
            Done::Declared => write!(f, " - taken: "),
            Done::Admitted(number) => write!(f, " - taken: atom {number} is "),
            Done::Stored(clause) => write!(f, " - stored as clause {clause}"),
            Done::Sealed => write!(f, " - the search opens"),
            Done::Vouched(clause) => write!(f, " - vouched, stored as clause {clause}"),
            Done::Entered { entry, denominator } => {
                let entered = Entered {
                    entry: *entry,
                    denominator: *denominator,
                };
                write!(f, " - {entered}")
            }
            Done::Opened(open) => write!(f, " - all literals false: analysing{}", Open(open)),
            Done::Resolved(open) => write!(f, " - analysing{}", Open(open)),
            Done::Jumped { clause, entry } => write!(
                f,
                " - learnt as clause {clause}; {}",
                Back(*entry)
            ),
            Done::Impossible => write!(f, " - impossible"),
            Done::Possible(arrangement) => write!(f, " - possible:{}", Arranged(arrangement)),
            Done::Undecided => write!(f, " - none"),
        }
    }
}
