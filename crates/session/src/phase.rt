ghost use Rattle.session.specs.Phases.{Serves};

// Where a session stands; a closed one by its verdict.
#[derive(Clone, Copy)]
pub enum Phase {
    New,
    Drafting,
    Searching,
    Analysing,
    Impossible,
    Possible,
    Undecided,
}

// The kinds of calls.
#[derive(Clone, Copy)]
pub enum Kind {
    Counts,
    Declare,
    Admit,
    Rule,
    Seal,
    Lemma,
    Choose,
    Set,
    Propagate,
    Read,
    Conflict,
    Resolve,
    Jump,
    Concede,
    Claim,
    Abandon,
}

impl Phase {
    // Whether a call of this kind serves in this phase. Each call decides it in place, as a rule of the project wants.
    pub fn serves(self, kind: Kind) -> bool
        ensures { Serves kind self result }
    {
        match (self, kind) {
            (Phase::New, Kind::Counts) => true,
            (Phase::Drafting, Kind::Declare | Kind::Admit | Kind::Rule | Kind::Seal) => true,
            (Phase::Searching, Kind::Admit | Kind::Lemma | Kind::Choose | Kind::Set) => true,
            (Phase::Searching, Kind::Propagate | Kind::Read | Kind::Conflict) => true,
            (Phase::Searching, Kind::Claim | Kind::Abandon) => true,
            (Phase::Analysing, Kind::Resolve | Kind::Jump | Kind::Concede | Kind::Abandon) => true,
            _ => false,
        }
    }
}
