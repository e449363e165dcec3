// Theories piled up: each pile is lawful because its layers are, so the law over every run holds of it.
#![tactic(auto)]

ghost use Rattle.std.specs.Prelude.{◌≡◌};
ghost use Rattle.calculus.specs.Sound.{EveryRunSound};
ghost use Rattle.piles.specs.Piles.{congruent_linear, twice_congruent, congruent_linear_of, twice_congruent_of};
ghost use Rattle.piles.specs.Examples.{ExamplesStand};

use calculus::{Theory, law};
use congruence::Congruence;
use linear::Linear;

// Congruence over linear.
pub type CongruentLinear = Congruence<Linear>;

// Congruence over congruence over linear.
pub type TwiceCongruent = Congruence<CongruentLinear>;

// Congruence over linear as it begins, and the law over every run with it.
pub fn congruent_linear() -> CongruentLinear
    ensures begun { congruent_linear_of result ≡ congruent_linear.begun }
    ensures sound { EveryRunSound congruent_linear }
{
    law::<CongruentLinear>();
    CongruentLinear::begin()
}

// The same of congruence over congruence over linear.
pub fn twice_congruent() -> TwiceCongruent
    ensures begun { twice_congruent_of result ≡ twice_congruent.begun }
    ensures sound { EveryRunSound twice_congruent }
{
    law::<TwiceCongruent>();
    TwiceCongruent::begin()
}

// Congruence over linear answers what the tables say.
pub fn examples_stand()
    ensures { ExamplesStand }
{}

#[cfg(test)]
mod tests {
    use super::CongruentLinear;
    use calculus::Theory;
    use faults::{InputCause, StateCause, TheoryFault};
    use std::alloc::{AllocError, Global};
    use std::process::Abort;
    use std::test::Fail;

    const SIZE: i32 = 100_000_000;

    // The body of an atom that compares coefficient times each of the first `count` measures with the constant.
    fn body(
        heap: Global,
        relation: u8,
        count: u8,
        coefficient: i32,
        constant: i32,
    ) -> Result<Vec<u8>, AllocError> {
        let mut v = Vec::new(heap);
        v.push(relation)?;
        v.push(count)?;
        for measure in 1..=count {
            v.push(measure)?;
            v.extend_from_slice(&coefficient.to_be_bytes())?;
        }
        v.extend_from_slice(&constant.to_be_bytes())?;
        Ok(v)
    }

    // A coefficient at its limit is taken, and one more is out of range, in linear's layer.
    #[test]
    fn coefficients_at_the_limit(rt: HostRuntime) -> Result<(), Fail> {
        let mut t = CongruentLinear::begin();
        assert_eq!(rt; t.counts(16), Ok(()));
        assert_eq!(rt;
            t.admit(body(rt.alloc(), 2, 16, SIZE, -SIZE)?.as_slice()),
            Ok(())
        );
        assert_eq!(rt;
            t.admit(body(rt.alloc(), 2, 16, -SIZE, SIZE)?.as_slice()),
            Ok(())
        );
        let refused = Err(TheoryFault::Input(InputCause::OutOfRange, 2));
        assert_eq!(rt;
            t.admit(body(rt.alloc(), 2, 16, 100_000_001, 0)?.as_slice()),
            refused
        );
        assert_eq!(rt;
            t.admit(body(rt.alloc(), 2, 16, SIZE, -100_000_001)?.as_slice()),
            refused
        );
        assert_eq!(rt; t.atoms(), 2);
        Ok(())
    }

    // Rows and values at all limits at once.
    #[test]
    fn values_at_the_limit(rt: HostRuntime) -> Result<(), Fail> {
        let mut t = CongruentLinear::begin();
        assert_eq!(rt; t.counts(16), Ok(()));
        assert_eq!(rt;
            t.admit(body(rt.alloc(), 2, 16, SIZE, -SIZE)?.as_slice()),
            Ok(())
        );
        assert_eq!(rt;
            t.admit(body(rt.alloc(), 1, 16, SIZE, SIZE)?.as_slice()),
            Ok(())
        );
        assert_eq!(rt;
            t.admit(body(rt.alloc(), 3, 1, SIZE, SIZE)?.as_slice()),
            Ok(())
        );
        let high = [1_000_000_000; 16];
        let low = [-1_000_000_000; 16];
        assert!(rt; !t.holds(1, &high, 1_000_000));
        assert!(rt; t.holds(1, &low, 1_000_000));
        assert!(rt; !t.holds(2, &high, 1_000_000));
        assert!(rt; t.holds(2, &low, 1_000_000));
        assert!(rt; t.holds(3, &[1_000_000; 16], 1_000_000));
        assert!(rt; !t.holds(3, &[1_000_001; 16], 1_000_000));
        assert_eq!(rt; t.admits(&high, 1_000_000), Ok(()));
        assert!(rt; !t.holds(1, &low, 1_000_001));
        assert!(rt; !t.holds(1, &[-1_000_000_001; 16], 1));
        let refused = Err(TheoryFault::State(StateCause::NotAdmitted, 1));
        assert_eq!(rt; t.admits(&high, 0), refused);
        Ok(())
    }

    // Sixteen literals with multipliers at their limit: eight times coefficient and constant against eight times the turned ones.
    fn vouched(rt: &impl Abort, heap: Global, last: i32) -> Result<bool, Fail> {
        let mut t = CongruentLinear::begin();
        assert_eq!(rt; t.counts(1), Ok(()));
        for _ in 0..8 {
            assert_eq!(rt; t.admit(body(heap, 2, 1, SIZE, -SIZE)?.as_slice()), Ok(()));
            assert_eq!(rt; t.admit(body(heap, 2, 1, -SIZE, last)?.as_slice()), Ok(()));
        }
        let mut hint = Vec::new(heap);
        hint.push(1)?;
        for _ in 0..16 {
            hint.extend_from_slice(&SIZE.to_be_bytes())?;
        }
        let clause = [
            -1, -2, -3, -4, -5, -6, -7, -8, -9, -10, -11, -12, -13, -14, -15, -16,
        ];
        match t.vouches(0, &clause, hint.as_slice()) {
            Ok(()) => Ok(true),
            Err(TheoryFault::State(StateCause::NotVouched, _)) => Ok(false),
            Err(_) => Err(Fail::new("refused")),
        }
    }

    #[test]
    fn multipliers_at_the_limit(rt: HostRuntime) -> Result<(), Fail> {
        assert!(rt; vouched(&rt, rt.alloc(), 99_999_999)?);
        assert!(rt; !vouched(&rt, rt.alloc(), SIZE)?);
        Ok(())
    }
}
