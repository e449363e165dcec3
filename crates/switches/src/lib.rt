// The theory of switches only: it takes no measures, has no atoms, and admits every arrangement.
#![tactic(auto)]

ghost use Rattle.std.specs.Prelude.{◌≡◌};
ghost use Rattle.switches.specs.Switches.{unknown, switches_only};
ghost use Rattle.switches.specs.Lawfulness.{switches_lawful};
ghost use Rattle.std.proofs.Common.{rules};

use calculus::Theory;
use calculus::limits::are_within_limits;
use faults::{InputCause, StateCause, TheoryFault};

#[derive(Clone, Copy)]
pub struct Switches {
    counted: bool,
}

// The refusal of a body or a hint: there is no kind of either.
pub fn refuse(bytes: &[u8]) -> TheoryFault
    ensures { result ≡ unknown bytes.now }
{
    if bytes.is_empty() {
        TheoryFault::Input(InputCause::WrongLength, 1)
    } else {
        TheoryFault::Input(InputCause::OutOfRange, 1)
    }
}

impl Theory for Switches {
    const MOST: u8 = 0;

    ghost kind = { switches_only };

    ghost model = { λ t. t.counted };

    ghost lawful = { switches_lawful };

    ghost few = { Prim.search rules };

    fn begin() -> Self {
        Switches { counted: false }
    }

    fn greatest() -> u8 {
        Self::MOST
    }

    fn counts(&mut self, measures: u8) -> Result<(), TheoryFault> {
        if self.counted {
            return Err(TheoryFault::State(StateCause::WrongPhase, 1));
        }
        if measures > Self::MOST {
            return Err(TheoryFault::Input(InputCause::OutOfRange, 1));
        }
        self.counted = true;
        Ok(())
    }

    fn declare(&mut self, body: &[u8]) -> Result<(), TheoryFault> {
        Err(refuse(body))
    }

    fn admit(&mut self, body: &[u8]) -> Result<(), TheoryFault> {
        Err(refuse(body))
    }

    fn measures(&self) -> u8 {
        0
    }

    fn atoms(&self) -> u8 {
        0
    }

    fn mentions(&self, _atom: u8, _measure: u8) -> bool {
        false
    }

    fn holds(&self, _atom: u8, _numerators: &[i32], _denominator: u32) -> bool {
        false
    }

    fn admits(&self, numerators: &[i32], denominator: u32) -> Result<(), TheoryFault> {
        if !are_within_limits(0, numerators, denominator) {
            return Err(TheoryFault::State(StateCause::NotAdmitted, 1));
        }
        Ok(())
    }

    fn equates(&self, _atom: u8, _i: u8, _j: u8) -> bool {
        false
    }

    fn vouches(&self, _switches: u8, _clause: &[i8], hint: &[u8]) -> Result<(), TheoryFault> {
        Err(refuse(hint))
    }
}
