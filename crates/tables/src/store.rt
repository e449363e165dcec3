ghost use Rattle.std.specs.Prelude.{◌≡◌, ◌≤◌, true, [], ◌∷◌, ◌++◌, map, length, nat_lt};
ghost use Rattle.calculus.specs.Limits.{most_clauses, within};
ghost use Rattle.calculus.specs.States.{clause as clause_at};
ghost use Rattle.tables.specs.Tables.{literals_of, stored_of, store_of};

use crate::clause::Clause;
use arrayvec::ArrayVec;
use calculus::limits::is_within;

const MOST_CLAUSES: usize = 250;

// A stored clause, and whether it is a rule.
#[derive(Clone, Copy, Default)]
pub struct Row {
    clause: Clause,
    rule: bool,
}

// The clauses in the order of their numbers, which count from 1.
#[derive(Drop)]
pub struct Store {
    rows: ArrayVec<Row, MOST_CLAUSES>,
}

impl Row {
    pub fn literals(&self) -> &[i8]
        ensures same { result.now ≡ (stored_of self.now).literals }
        ensures few { length result.now ≤ 16 }
    {
        self.clause.literals()
    }

    pub fn is_rule(&self) -> bool
        ensures { result ≡ (stored_of self.now).rule }
    {
        self.rule
    }
}

impl Store {
    pub fn new() -> Store
        ensures { store_of result ≡ [] }
    {
        Store {
            rows: ArrayVec::new(),
        }
    }

    pub fn len(&self) -> u8
        ensures count { result ≡ length (store_of self.now) }
        ensures bound { result ≤ 250 }
    {
        self.rows.len() as u8
    }

    // There is room for one clause more.
    pub fn has_room(&self) -> bool
        ensures { result ≡ nat_lt (length (store_of self.now)) most_clauses }
    {
        !self.rows.is_full()
    }

    // There is a clause of this number.
    pub fn has(&self, number: u8) -> bool
        ensures { result ≡ within (length (store_of self.now)) number }
    {
        is_within(self.rows.len(), usize::from(number))
    }

    pub fn rows(&self) -> &[Row]
        ensures { map stored_of result.now ≡ store_of self.now }
    {
        self.rows.as_slice()
    }

    // The literals of the clause of this number; none behind the last, and for 0 those of the first, as the definition has
    // it. Each look-up by a number from 1 is two calls of the library: a function for them would be no shorter.
    pub fn literals(&self, number: u8) -> &[i8]
        ensures same { result.now ≡ clause_at (store_of self.now) number }
        ensures few { length result.now ≤ 16 }
    {
        match self.rows.get(usize::from(number.saturating_sub(1))) {
            Some(row) => row.literals(),
            None => &[],
        }
    }

    pub fn push(&mut self, clause: Clause, rule: bool)
        requires { nat_lt (length (store_of self.old)) most_clauses ≡ true }
        ensures { store_of self.new ≡ store_of self.old ++ record { literals = literals_of clause; rule = rule } ∷ [] }
    {
        self.rows.push(Row { clause, rule });
    }
}
