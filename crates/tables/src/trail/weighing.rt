// What the trail says of a clause, and of all measures.
ghost use Rattle.std.specs.Prelude.{◌≡◌, ◌≤◌, not, ◌||◌, map, neg_ℤ, ◌==◌};
ghost use Rattle.std.specs.List.{range_with_len};
ghost use Rattle.calculus.specs.Lists.{every, highest};
ghost use Rattle.calculus.specs.Literals.{same};
ghost use Rattle.calculus.specs.Trails.{entry_for, affirms, was_read, false_on, false_at, value};
ghost use Rattle.calculus.specs.Steps.{others, others_false, all_read};
ghost use Rattle.tables.specs.Tables.{trail_of};

use super::Trail;

impl Trail {
    // All literals of the clause are false.
    pub fn all_false(&self, clause: &[i8]) -> bool
        ensures { result ≡ every (false_on (trail_of self.now)) clause.now }
    {
        clause.iter().all(|k| self.is_false(*k))
    }

    fn is_or_false(&self, literal: i8, k: i8) -> bool
        ensures { result ≡ (same k literal || false_on (trail_of self.now) k) }
    {
        k == literal || self.is_false(k)
    }

    // All literals of the clause but this one are false.
    pub fn others_false(&self, literal: i8, clause: &[i8]) -> bool
        ensures { result ≡ others_false (trail_of self.now) literal clause.now }
    {
        clause.iter().all(|k| self.is_or_false(literal, *k))
    }

    // The highest level at which a literal of the clause is false, or 0.
    pub fn top_level(&self, clause: &[i8]) -> u8
        ensures { result ≡ highest (false_at (trail_of self.now)) clause.now }
    {
        clause.iter().fold(0, |top, k| top.max(self.false_at(*k)))
    }

    // The highest level at which another literal of the clause than this one is false, or 0.
    pub fn next_level(&self, literal: i8, clause: &[i8]) -> u8
        ensures { result ≡ highest (false_at (trail_of self.now)) (others literal clause.now) }
    {
        clause
            .iter()
            .filter(|k| **k != literal)
            .fold(0, |top, k| top.max(self.false_at(*k)))
    }

    // The values made every literal false that is false at this level.
    pub fn all_read(&self, level: u8, clause: &[i8]) -> bool
        ensures { result ≡ all_read (trail_of self.now) level clause.now }
    {
        clause
            .iter()
            .filter(|k| self.false_at(**k) == level)
            .all(|k| self.denial_was_read(*k))
    }

    // The numerators of the first measures, in their order.
    pub fn numerators(&self, measures: u8) -> &[i32]
        requires { measures ≤ 16 }
        ensures { result.now ≡ map (λ j. value j (trail_of self.now)) (range_with_len 1 measures) }
    {
        &self.numerators[1..=usize::from(measures)]
    }
}
