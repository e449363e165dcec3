ghost use Rattle.std.specs.Prelude.{◌≡◌, ◌≤◌, length, map, pos};
ghost use Rattle.std.specs.List.{range_with_len};
ghost use Rattle.fixedvec.specs.Items.{items_of};
ghost use Rattle.calculus.specs.Trails.{on_trail};
ghost use Rattle.tables.specs.Tables.{trail_of};
ghost use Rattle.claims.specs.Arranging.{arrangement};
ghost use Rattle.claims.specs.Views.{arrangement_of};

use calculus::Theory;
use fixedvec::FixedVec;
use tables::trail::{MOST_MEASURES, Trail};

const MOST_SWITCHES: usize = 127;

// Yes or no for each switch, and for each measure a numerator over one denominator.
#[derive(Clone, Copy)]
pub struct Arrangement {
    switches: FixedVec<bool, MOST_SWITCHES>,
    numerators: FixedVec<i32, MOST_MEASURES>,
    denominator: u32,
}

impl Arrangement {
    pub fn switches(&self) -> &[bool]
        ensures value { result.now ≡ (arrangement_of self.now).switches }
        ensures few { length result.now ≤ 127 }
    {
        self.switches.as_slice()
    }

    pub fn numerators(&self) -> &[i32]
        ensures value { result.now ≡ (arrangement_of self.now).numerators }
        ensures few { length result.now ≤ 16 }
    {
        self.numerators.as_slice()
    }

    pub fn denominator(&self) -> u32
        ensures { result ≡ (arrangement_of self.now).denominator }
    {
        self.denominator
    }
}

// Whether the trail affirms each of the first numbers, in their order.
fn affirmed(trail: &Trail, count: u8) -> FixedVec<bool, MOST_SWITCHES>
    requires { count ≤ 127 }
    ensures { items_of result ≡ map (λ n. on_trail (pos n) (trail_of trail.now)) (range_with_len 1 count) }
{
    let mut switches = FixedVec::new();
    for n in 1..count + 1 {
        switches.push(trail.affirms(n as i8));
    }
    switches
}

fn copied(numerators: &[i32]) -> FixedVec<i32, MOST_MEASURES>
    requires { length numerators.now ≤ 16 }
    ensures { items_of result ≡ numerators.now }
{
    let mut copied = FixedVec::new();
    let _ = copied.try_extend_from_slice(numerators);
    copied
}

// The arrangement that the trail makes: a switch that it does not affirm counts as no. It asks nothing of the
// denominator, and so stands beside the claim.
pub fn arrange<T: Theory>(theory: &T, switches: u8, denominator: u32, trail: &Trail) -> Arrangement
    requires { switches ≤ 127 }
    ensures { arrangement_of result ≡ arrangement T.Theory.kind (T.Theory.model theory.now) switches denominator (trail_of trail.now) }
{
    Arrangement {
        switches: affirmed(trail, switches),
        numerators: copied(trail.numerators(theory.measures())),
        denominator,
    }
}
