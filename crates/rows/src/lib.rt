// Rows: what the linear theory is, as a value, and that it keeps the laws of a theory.
#![tactic(auto)]

ghost use Rattle.std.specs.Prelude.{◌≡◌};
ghost use Rattle.calculus.specs.Kinds.{Lawful};
ghost use Rattle.rows.specs.Rows.{compares};
ghost use Rattle.rows.specs.Bodies.{Decodes};
ghost use Rattle.rows.specs.Linear.{linear};
ghost use Rattle.rows.specs.Examples.{ExamplesStand};

// How a row compares with its constant.
#[derive(Clone, Copy, Debug, PartialEq, Eq)]
pub enum Relation {
    Less,
    AtMost,
    Equal,
}

// A byte that stands for no relation.
#[derive(Clone, Copy, Debug, PartialEq, Eq)]
pub struct UnknownRelation(pub u8);

// A measure and its coefficient.
#[derive(Clone, Copy, Debug, Default, PartialEq, Eq)]
pub struct Entry {
    pub measure: u8,
    pub coefficient: i32,
}

impl TryFrom<u8> for Relation {
    type Error = UnknownRelation;

    ghost try_from_gives = { Decodes };

    fn try_from(byte: u8) -> Result<Self, UnknownRelation> {
        match byte {
            1 => Ok(Relation::Less),
            2 => Ok(Relation::AtMost),
            3 => Ok(Relation::Equal),
            _ => Err(UnknownRelation(byte)),
        }
    }
}

impl Relation {
    // Whether the relation is met.
    pub fn compares(self, a: i64, b: i64) -> bool
        ensures { result ≡ compares self a b }
    {
        match self {
            Relation::Less => a < b,
            Relation::AtMost => a <= b,
            Relation::Equal => a == b,
        }
    }
}

// The linear theory keeps the laws.
pub fn laws_stand()
    ensures { Lawful linear }
{}

// The examples are answered as their table says.
pub fn examples_stand()
    ensures { ExamplesStand }
{}
