// The limits within which questions are answered, and look-ups by a number counted from 1.
ghost use Rattle.std.specs.Prelude.{◌≡◌, pos};
ghost use Rattle.calculus.specs.Lists.{every, nth};
ghost use Rattle.calculus.specs.Limits.{most_numerator, sized, within};
ghost use Rattle.calculus.specs.Questions.{in_limits};

// A numerator that is given lies between minus this and this.
pub const MOST_NUMERATOR: i32 = 1_000_000_000;

pub const MOST_DENOMINATOR: u32 = 1_000_000;

// One of the numbers 1 to `most`.
pub fn is_within(most: usize, n: usize) -> bool
    ensures { result ≡ within most n }
{
    (1..=most).contains(&n)
}

pub fn is_numerator(x: i32) -> bool
    ensures { result ≡ sized most_numerator x }
{
    (-MOST_NUMERATOR..=MOST_NUMERATOR).contains(&x)
}

// All are looked at, even behind one that fails, so that several can be compared at once.
fn are_numerators(xs: &[i32]) -> bool
    ensures { result ≡ every (sized most_numerator) xs.now }
{
    xs.iter().fold(true, |all, &x| all & is_numerator(x))
}

// Whether there is a numerator for each measure, and all numbers are within the limits.
pub fn are_within_limits(measures: u8, numerators: &[i32], denominator: u32) -> bool
    ensures { result ≡ in_limits measures numerators.now denominator }
{
    numerators.len() == usize::from(measures)
        && are_numerators(numerators)
        && (1..=MOST_DENOMINATOR).contains(&denominator)
}

// The numerator of a measure, 0 where there is none.
pub fn value_at(numerators: &[i32], measure: u8) -> i32
    ensures { result ≡ nth (pos 0) numerators.now measure }
{
    let place = usize::from(measure).wrapping_sub(1);
    numerators.get(place).copied().unwrap_or(0)
}
