// What a session holds, written out, so that two sessions can be compared.
use calculus::Theory;
use session::Session;
use session::phase::Phase;
use std::alloc::{AllocError, Global};
use std::fmt::Write;
use tables::entry::{Entry, Origin};

fn name(phase: Phase) -> &'static str {
    match phase {
        Phase::New => "new",
        Phase::Drafting => "drafting",
        Phase::Searching => "searching",
        Phase::Analysing => "analysing",
        Phase::Impossible => "impossible",
        Phase::Possible => "possible",
        Phase::Undecided => "undecided",
    }
}

// An entry with its level: a value as `m2=0@1`, a literal as `-4@2 chosen`.
fn write_entry(text: &mut String, entry: Entry) -> Result<(), AllocError> {
    match entry {
        Entry::Value {
            measure,
            numerator,
            level,
        } => write!(text, "m{measure}={numerator}@{level}"),
        Entry::Literal {
            literal,
            level,
            origin,
        } => {
            write!(text, "{literal}@{level} ")?;
            match origin {
                Origin::Chosen => write!(text, "chosen"),
                Origin::Propagated(clause) => write!(text, "by {clause}"),
                Origin::Read => write!(text, "read"),
            }
        }
    }
}

fn write_literals(text: &mut String, literals: &[i8]) -> Result<(), AllocError> {
    for literal in literals {
        write!(text, " {literal}")?;
    }
    Ok(())
}

// The trail, an entry behind the other, parted by commas.
pub fn trail<T: Theory>(heap: Global, session: &Session<T>) -> Result<String, AllocError> {
    let mut text = String::new(heap);
    for entry in session.trail().entries() {
        if !text.is_empty() {
            write!(text, ", ")?;
        }
        write_entry(&mut text, *entry)?;
    }
    Ok(text)
}

// The stored clauses, with an R before each rule, parted by semicolons.
pub fn clauses<T: Theory>(heap: Global, session: &Session<T>) -> Result<String, AllocError> {
    let mut text = String::new(heap);
    for row in session.store().rows() {
        if row.is_rule() {
            write!(text, "R")?;
        }
        write_literals(&mut text, row.literals())?;
        write!(text, ";")?;
    }
    Ok(text)
}

// Of each atom the measures that it mentions, and whether it is true where all of them are 0.
fn atoms<T: Theory>(heap: Global, session: &Session<T>) -> Result<String, AllocError> {
    let theory = session.theory();
    let zeros = [0; 16];
    let numerators = zeros
        .get(..usize::from(theory.measures()))
        .unwrap_or(&zeros);
    let mut text = String::new(heap);
    for atom in 1..=theory.atoms() {
        for measure in 1..=theory.measures() {
            if theory.mentions(atom, measure) {
                write!(text, " m{measure}")?;
            }
        }
        let holds = theory.holds(atom, numerators, 1);
        write!(text, " {holds};")?;
    }
    Ok(text)
}

// All that a session shows.
pub fn picture<T: Theory>(heap: Global, session: &Session<T>) -> Result<String, AllocError> {
    let phase = name(session.phase());
    let switches = session.switches();
    let denominator = session.arrangement().denominator();
    let measures = session.theory().measures();
    let mut text = format!(in heap;
        "{phase}, {switches} switches, {measures} measures over {denominator}"
    )?;
    let trail = trail(heap, session)?;
    let clauses = clauses(heap, session)?;
    let atoms = atoms(heap, session)?;
    write!(text, " | {trail} | {clauses} | {atoms} |")?;
    write_literals(&mut text, session.analysed())?;
    Ok(text)
}
