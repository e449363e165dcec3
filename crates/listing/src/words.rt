// Atoms and applications in words, from the bodies that wrote them.
use files::Call;
use numerals::signed_word;
use rows::Relation;
use std::fmt;

// The words of the body that a call hands to the theory, if it does.
#[derive(Drop)]
pub struct BodyWords<'a>(pub Call<'a>);

// An atom of the linear theory, as `m1 + m2 <= 60`.
#[derive(Drop)]
struct AtomWords<'a>(&'a [u8]);

// An application, as `f7(m1, m3) = m2`.
#[derive(Drop)]
struct ApplicationWords<'a>(&'a [u8]);

// One term of a row; the first is written without a blank before its sign.
#[derive(Drop)]
struct Term {
    first: bool,
    measure: u8,
    coefficient: i32,
}

impl fmt::Display for Term {
    fn fmt<W: fmt::Write>(&self, f: &mut fmt::Formatter<W>) -> fmt::Result {
        let measure = self.measure;
        let size = self.coefficient.unsigned_abs();
        match (self.first, self.coefficient < 0) {
            (true, false) => {}
            (true, true) => write!(f, "-")?,
            (false, false) => write!(f, " + ")?,
            (false, true) => write!(f, " - ")?,
        }
        if size == 1 {
            write!(f, "m{measure}")
        } else {
            write!(f, "{size}*m{measure}")
        }
    }
}

impl fmt::Display for AtomWords<'_> {
    fn fmt<W: fmt::Write>(&self, f: &mut fmt::Formatter<W>) -> fmt::Result {
        let [relation, count, terms @ .., a, b, c, d] = self.0 else {
            return Ok(());
        };
        if *count == 0 {
            write!(f, "0")?;
        }
        let (terms, _) = terms.as_chunks::<5>();
        for (i, [measure, a, b, c, d]) in terms.iter().enumerate() {
            let term = Term {
                first: i == 0,
                measure: *measure,
                coefficient: signed_word(*a, *b, *c, *d),
            };
            write!(f, "{term}")?;
        }
        let sign = match Relation::try_from(*relation) {
            Ok(Relation::Less) => "<",
            Ok(Relation::AtMost) => "<=",
            _ => "=",
        };
        let constant = signed_word(*a, *b, *c, *d);
        write!(f, " {sign} {constant}")
    }
}

impl fmt::Display for ApplicationWords<'_> {
    fn fmt<W: fmt::Write>(&self, f: &mut fmt::Formatter<W>) -> fmt::Result {
        let [_, function, _, first, more @ .., result] = self.0 else {
            return Ok(());
        };
        write!(f, "f{function}(m{first}")?;
        for measure in more {
            write!(f, ", m{measure}")?;
        }
        write!(f, ") = m{result}")
    }
}

impl fmt::Display for BodyWords<'_> {
    fn fmt<W: fmt::Write>(&self, f: &mut fmt::Formatter<W>) -> fmt::Result {
        match self.0 {
            Call::Declare(body) => write!(f, "{}", ApplicationWords(body)),
            Call::Admit(body) => write!(f, "{}", AtomWords(body)),
            _ => Ok(()),
        }
    }
}
