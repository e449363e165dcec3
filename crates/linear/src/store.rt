// What the linear theory holds: the count of measures, once it is taken, and a table of atoms.
ghost use Rattle.std.specs.Prelude.{◌≡◌, ◌≤◌, true, false, length, IfSome, is_some};
ghost use Rattle.std.specs.Option.{unwrap_or};
ghost use Rattle.calculus.specs.Limits.{most_measures, within};
ghost use Rattle.rows.specs.Linear.{linear, atom as row_at};

use crate::atoms::Atom;
use crate::bounds::MOST_ATOMS;
use calculus::limits::is_within;
use fixedvec::FixedVec;

#[derive(Clone, Copy)]
pub struct Linear {
    pub(crate) measures: Option<u8>,
    pub(crate) atoms: FixedVec<Atom, MOST_ATOMS>,
    ghost few: { unwrap_or measures 0 ≤ most_measures },
}

impl Linear {
    ghost use Rattle.linear.specs.Models.{table};
    ghost use Rattle.linear.specs.Views.{row};

    pub(crate) fn empty() -> Linear
        ensures { table result ≡ linear.begun }
    {
        Linear {
            measures: None,
            atoms: FixedVec::new(),
        }
    }

    // The atom of a number, counted from 1, if it is there: two calls, as each such look-up is.
    pub(crate) fn atom(&self, number: u8) -> Option<&Atom>
        ensures there { is_some result ≡ within (length (table self.now).rows) number }
        ensures row { IfSome result (λ a. row a.now ≡ row_at (table self.now) number) }
    {
        let place = usize::from(number).checked_sub(1)?;
        self.atoms.as_slice().get(place)
    }

    // How many measures there are.
    pub(crate) fn measure_count(&self) -> u8
        ensures value { result ≡ (table self.now).measures }
        ensures few { result ≤ most_measures }
    {
        self.measures.unwrap_or(0)
    }

    pub(crate) fn has_measure(&self, measure: u8) -> bool
        ensures { result ≡ within (table self.now).measures measure }
    {
        is_within(usize::from(self.measure_count()), usize::from(measure))
    }
}
