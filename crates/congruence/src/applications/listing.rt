ghost use Rattle.std.specs.Prelude.{◌≡◌, true, false, [], length, MatchOption, nat_lt};
ghost use Rattle.calculus.specs.Lists.{every, nth};
ghost use Rattle.calculus.specs.Limits.{within};
ghost use Rattle.congruences.specs.Applications.{most_applications, no_application, agree, consistent};
ghost use Rattle.congruence.specs.Views.{application_of, applications_of};

use super::Applications;
use crate::application::Application;
use crate::application::applying::do_agree;
use arrayvec::ArrayVec;

impl Applications {
    pub fn new() -> Applications
        ensures { applications_of result ≡ [] }
    {
        Applications {
            rows: ArrayVec::new(),
        }
    }

    pub fn has_room(&self) -> bool
        ensures { result ≡ nat_lt (length (applications_of self.now)) most_applications }
    {
        !self.rows.is_full()
    }

    // The application of this number, counted from 1: two calls, as each such look-up is.
    pub fn get(&self, number: u8) -> Option<&Application>
        ensures { MatchOption result (within (length (applications_of self.now)) number ≡ false) (λ a. (within (length (applications_of self.now)) number ≡ true) × (application_of a.now ≡ nth no_application (applications_of self.now) number)) }
    {
        let place = usize::from(number).checked_sub(1)?;
        self.rows.get(place)
    }

    fn agrees_with_all(&self, numerators: &[i32], p: &Application) -> bool
        ensures { result ≡ every (agree numerators.now (application_of p.now)) (applications_of self.now) }
    {
        self.rows.iter().all(|q| do_agree(numerators, p, q))
    }

    // Any two of the applications agree.
    pub fn are_consistent(&self, numerators: &[i32]) -> bool
        ensures { result ≡ consistent (applications_of self.now) numerators.now }
    {
        self.rows
            .iter()
            .all(|p| self.agrees_with_all(numerators, p))
    }
}
