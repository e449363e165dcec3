ghost use Rattle.std.specs.Prelude.{◌≡◌, MatchOption, neg_ℤ};
ghost use Rattle.calculus.specs.Trails.{choice, affirms, concerns, values, numerator, was_read, reason};
ghost use Rattle.tables.specs.Views.{entry_of};
ghost use Rattle.tables.specs.Keys.{key as key_of};

// How a literal came onto the trail: chosen, propagated by the clause of this number, or read off the values.
#[derive(Clone, Copy)]
pub enum Origin {
    Chosen,
    Propagated(u8),
    Read,
}

// What stands on the trail: the value of a measure, or a literal.
#[derive(Clone, Copy)]
pub enum Entry {
    Value {
        measure: u8,
        numerator: i32,
        level: u8,
    },
    Literal {
        literal: i8,
        level: u8,
        origin: Origin,
    },
}

// What fills the places of a trail that are not used. No case without fields could be the derived one.
impl Default for Entry {
    fn default() -> Entry {
        Entry::Value {
            measure: 0,
            numerator: 0,
            level: 0,
        }
    }
}

impl Entry {
    pub fn level(self) -> u8
        ensures { result ≡ (entry_of self).level }
    {
        match self {
            Entry::Value { level, .. } | Entry::Literal { level, .. } => level,
        }
    }

    // Under what its place is kept.
    pub fn key(self) -> u8
        ensures { result ≡ key_of (entry_of self).content }
    {
        match self {
            Entry::Value { measure, .. } => 255 - measure,
            Entry::Literal { literal, .. } => literal.unsigned_abs(),
        }
    }

    pub fn is_choice(self) -> bool
        ensures { result ≡ choice (entry_of self).content }
    {
        matches!(
            self,
            Entry::Value { .. }
                | Entry::Literal {
                    origin: Origin::Chosen,
                    ..
                }
        )
    }

    // It is a literal on this number.
    pub fn concerns(self, number: u8) -> bool
        ensures { result ≡ concerns number (entry_of self).content }
    {
        matches!(self, Entry::Literal { literal, .. } if literal.unsigned_abs() == number)
    }

    // It is a value for this measure.
    pub fn values(self, wanted: u8) -> bool
        ensures { result ≡ values wanted (entry_of self).content }
    {
        matches!(self, Entry::Value { measure, .. } if measure == wanted)
    }

    pub fn affirms(self, wanted: i8) -> bool
        ensures { result ≡ affirms wanted (entry_of self).content }
    {
        matches!(self, Entry::Literal { literal, .. } if literal == wanted)
    }

    pub fn denies(self, wanted: i8) -> bool
        ensures { result ≡ affirms (neg_ℤ wanted) (entry_of self).content }
    {
        matches!(self, Entry::Literal { literal, .. } if i16::from(literal) == -i16::from(wanted))
    }

    // Its numerator, or 0.
    pub fn numerator(self) -> i32
        ensures { result ≡ numerator (entry_of self).content }
    {
        match self {
            Entry::Value { numerator, .. } => numerator,
            Entry::Literal { .. } => 0,
        }
    }

    pub fn was_read(self) -> bool
        ensures { result ≡ was_read (entry_of self).content }
    {
        matches!(
            self,
            Entry::Literal {
                origin: Origin::Read,
                ..
            }
        )
    }

    // The number of the clause that propagated it.
    pub fn reason(self) -> Option<u8>
        ensures { MatchOption result (reason (entry_of self).content ≡ 0) (λ c. c ≡ reason (entry_of self).content) }
    {
        match self {
            Entry::Literal {
                origin: Origin::Propagated(clause),
                ..
            } => Some(clause),
            _ => None,
        }
    }
}
