// A clause whose literals are known, and whether it splits an equality.
ghost use Rattle.std.specs.Prelude.{◌≡◌, ◌+◌, Bool, true, false, ◌&&◌, length, MatchOption, nat_le};
ghost use Rattle.calculus.specs.Lists.{some};
ghost use Rattle.calculus.specs.Limits.{within};
ghost use Rattle.calculus.specs.Literals.{number};
ghost use Rattle.rows.specs.Rows.{Row, related_by};
ghost use Rattle.rows.specs.Hints.{row_of, affirms as affirmed_by, some_affirms as affirmed_in, halved as is_halved, splits as split_in, all_known as known_in};
ghost use Rattle.linear.specs.Models.{table};

use crate::atoms::Atom;
use crate::store::Linear;
use calculus::limits::is_within;
use rows::Relation;

// Each literal is on a switch or on an atom that is there.
#[derive(Clone, Copy)]
pub struct Clause<'a> {
    pub linear: &'a Linear,
    pub switches: u8,
    pub literals: &'a [i8],
    ghost known: { known_in (table linear.now).rows switches literals.now ≡ true },
}

// Whether a literal is on a switch or on an atom that is there.
fn knows(linear: &Linear, switches: u8, literal: i8) -> bool
    ensures { result ≡ within (switches + length (table linear.now).rows) (number literal) }
{
    let count = usize::from(switches) + linear.atoms.len();
    let number = usize::from(literal.unsigned_abs());
    is_within(count, number)
}

// A line, as the like of it in congruence and in tables.
fn knows_all(linear: &Linear, switches: u8, literals: &[i8]) -> bool
    ensures { result ≡ known_in (table linear.now).rows switches literals.now }
{
    literals
        .iter()
        .all(|literal| knows(linear, switches, *literal))
}

impl<'a> Clause<'a> {
    ghost use Rattle.linear.specs.Views.{row};

    // The clause of these literals, if each is known.
    pub fn known(linear: &'a Linear, switches: u8, literals: &'a [i8]) -> Option<Self>
        ensures { MatchOption result (known_in (table linear.now).rows switches literals.now ≡ false) (λ c. (known_in (table linear.now).rows switches literals.now ≡ true) × (c.linear.now ≡ linear.now) × (c.switches ≡ switches) × (c.literals.now ≡ literals.now)) }
    {
        if !knows_all(linear, switches, literals) {
            return None;
        }
        Some(Clause {
            linear,
            switches,
            literals,
        })
    }

    // The atom that a literal is on, or none where it is on a switch. That the literal is known is what the clause says of
    // all of its own, handed on for one.
    pub fn atom(&self, literal: i8) -> Option<&'a Atom>
        requires { within (self.now.switches + length (table self.now.linear.now).rows) (number literal) ≡ true }
        ensures { MatchOption result (nat_le (number literal) self.now.switches ≡ true) (λ a. (nat_le (number literal) self.now.switches ≡ false) × (row a.now ≡ row_of (table self.now.linear.now).rows self.now.switches literal)) }
    {
        let number = literal.unsigned_abs().checked_sub(self.switches)?;
        self.linear.atom(number)
    }

    // Whether the literal affirms an atom that passes the test.
    #[tactic(auto, using(crate::proofs::Affirmed::affirms_atom, crate::proofs::Affirmed::affirms_switch, crate::proofs::Affirmed::affirms_denied))]
    fn affirms<F: Fn(&Atom) -> bool>(&self, literal: i8, test: &F) -> bool
        requires known { within (self.now.switches + length (table self.now.linear.now).rows) (number literal) ≡ true }
        requires callable { F.IsAlwaysCallable test.now }
        ensures { (p : Row → Bool) → ((a : _) (r : Bool) → F.post test.now a r → r ≡ p (row a.now)) → result ≡ affirmed_by (table self.now.linear.now).rows self.now.switches p literal }
    {
        if literal <= 0 {
            return false;
        }
        let Some(atom) = self.atom(literal) else {
            return false;
        };
        test(atom)
    }

    // Whether the clause affirms an atom that passes the test.
    fn some_affirms<F: Fn(&Atom) -> bool>(&self, test: &F) -> bool
        requires { F.IsAlwaysCallable test.now }
        ensures { (p : Row → Bool) → ((a : _) (r : Bool) → F.post test.now a r → r ≡ p (row a.now)) → result ≡ some (affirmed_by (table self.now.linear.now).rows self.now.switches p) self.now.literals.now }
    {
        self.literals
            .iter()
            .any(|literal| self.affirms(*literal, test))
    }

    // Whether the clause affirms the atom's row in that relation.
    fn affirms_row(&self, relation: Relation, atom: &Atom) -> bool
        ensures { result ≡ affirmed_in (table self.now.linear.now).rows self.now.switches self.now.literals.now (related_by relation (row atom.now)) }
    {
        self.some_affirms(&|other: &Atom| other.is_related(relation, atom))
    }

    // Whether the atom is row = c, and the clause affirms row < c and turned row < turned c.
    #[tactic(auto, using(rows::proofs::Alike::relations_alike))]
    fn halves(&self, atom: &Atom) -> bool
        ensures { result ≡ is_halved (table self.now.linear.now).rows self.now.switches self.now.literals.now (row atom.now) }
    {
        atom.relation == Relation::Equal
            && self.affirms_row(Relation::Less, atom)
            && self.affirms_row(Relation::Less, &atom.turned())
    }

    // Whether the clause affirms an equality that it halves.
    pub fn splits(&self) -> bool
        ensures { result ≡ split_in (table self.now.linear.now).rows self.now.switches self.now.literals.now }
    {
        self.some_affirms(&|atom: &Atom| self.halves(atom))
    }
}
