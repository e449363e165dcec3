// What a session holds, to be looked at.
ghost use Rattle.std.specs.Prelude.{◌≡◌};
ghost use Rattle.calculus.specs.Steps.{arranged};
ghost use Rattle.claims.specs.Views.{arrangement_of};
ghost use Rattle.tables.specs.Tables.{trail_of, store_of};
ghost use Rattle.session.specs.Cores.{view as view_of_core};
ghost use Rattle.session.specs.Views.{view};

use super::phase::Phase;
use super::{Core, Session};
use calculus::Theory;
use claims::arrangement::{Arrangement, arrange};
use readings::{Atoms, Reading};
use tables::store::Store;
use tables::trail::Trail;

impl<T: Theory> Session<T> {
    pub fn phase(&self) -> Phase
        ensures { result ≡ self.now.core.phase }
    {
        self.core.phase
    }

    // How many of the numbers are switches.
    pub fn switches(&self) -> u8
        ensures { result ≡ (view T.Theory.kind T.Theory.model self.now).switches }
    {
        self.core.counts.switches()
    }

    pub fn trail(&self) -> &Trail
        ensures { trail_of result.now ≡ (view T.Theory.kind T.Theory.model self.now).trail }
    {
        &self.core.trail
    }

    pub fn store(&self) -> &Store
        ensures { store_of result.now ≡ (view T.Theory.kind T.Theory.model self.now).clauses }
    {
        &self.core.store
    }

    // The clause under analysis; else empty.
    pub fn analysed(&self) -> &[i8]
        ensures { result.now ≡ (view T.Theory.kind T.Theory.model self.now).open_clause }
    {
        self.core.analysed.literals()
    }

    // The arrangement that the trail makes; of a session that closed as possible, the one that was claimed.
    pub fn arrangement(&self) -> Arrangement
        ensures { arrangement_of result ≡ arranged T.Theory.kind (view T.Theory.kind T.Theory.model self.now) }
    {
        self.core.arrangement()
    }

    pub fn theory(&self) -> &T
        ensures { T.Theory.model result.now ≡ (view T.Theory.kind T.Theory.model self.now).model }
    {
        &self.core.theory
    }
}

impl<T: Theory> Core<T> {
    // The atoms under their numbers.
    pub(crate) fn atoms(&self) -> Atoms<'_, T>
        ensures theory { result.theory.now ≡ self.now.theory }
        ensures switches { result.switches ≡ self.now.counts.switches }
    {
        Atoms {
            theory: &self.theory,
            switches: self.counts.switches(),
        }
    }

    // The atoms, with the denominator of all values.
    pub(crate) fn reading(&self) -> Reading<'_, T>
        ensures theory { result.atoms.theory.now ≡ self.now.theory }
        ensures switches { result.atoms.switches ≡ self.now.counts.switches }
        ensures denominator { result.denominator ≡ self.now.counts.denominator }
    {
        Reading {
            atoms: self.atoms(),
            denominator: self.counts.denominator(),
        }
    }

    // The arrangement that the trail makes.
    pub(crate) fn arrangement(&self) -> Arrangement
        ensures { arrangement_of result ≡ arranged T.Theory.kind (view_of_core T.Theory.kind T.Theory.model self.now) }
    {
        let switches = self.counts.switches();
        arrange(
            &self.theory,
            switches,
            self.counts.denominator(),
            &self.trail,
        )
    }
}
