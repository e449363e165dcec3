// Why something is refused. The causes in the input and the causes in the state are two lists; a fault
// is a cause together with where it arose: in a file, in the session, or in one layer of the theory.
#![tactic(auto)]

ghost use Rattle.std.specs.Prelude.{◌≡◌};
ghost use Rattle.faults.specs.declared.SessionFault.TheVariants.{Theory};
ghost use Rattle.faults.specs.declared.FileFault.TheVariants.{Session};
ghost use Rattle.faults.specs.Causes.{coded, input_number, state_number, theory_code, session_code, file_code, one_lower, raised};

// The causes in the input, in their order, with their numbers.
#[derive(Clone, Copy, PartialEq, Eq, Debug)]
pub enum InputCause {
    // the first byte of a file is absent or not 01
    WrongVersion = 1,
    // a case over 20,000 bytes or a log over 40,000
    FileTooLong = 2,
    // a record's length is cut short, 0 or beyond the end
    BadRecordLength = 3,
    // a kind of record that is not of this file
    UnknownKind = 4,
    // a body, a hint or a record of the wrong length
    WrongLength = 5,
    // a number outside its range
    OutOfRange = 6,
    // a literal that is 0 or -128
    BadLiteral = 7,
    // more than 16 literals, or a number twice
    BadClause = 8,
    // a report buffer under 2,048 bytes
    ShortBuffer = 9,
}

// The causes in the state, in their order, with their numbers.
#[derive(Clone, Copy, PartialEq, Eq, Debug)]
pub enum StateCause {
    // a call that does not serve in this phase
    WrongPhase = 20,
    // no room for one more clause, number or application
    Full = 21,
    // a number or clause that is not there, or 0
    Absent = 22,
    // already on the trail, or valued
    Taken = 23,
    // readable where it must not be, or the reverse
    WrongReadability = 24,
    // the literal is not in the clause, or another literal of it is not false
    NotUnit = 25,
    // a value that makes a literal of the trail false
    ContradictsTrail = 26,
    // a clause with a literal that is not false
    NotFalse = 27,
    // not in the open clause, or without a reason
    NotResolvable = 28,
    // a resolvent of more than 16 literals
    ResolventTooLong = 29,
    // a jump or concession that the levels do not allow
    NotAllowed = 30,
    // a lemma that the theory does not vouch for
    NotVouched = 31,
    // a measure without a value
    NoValue = 32,
    // a rule without a true literal
    RuleUnmet = 33,
    // values that the theory does not admit
    NotAdmitted = 34,
}

// A fault's cause, by its number, and the layer that it comes from.
#[derive(Clone, Copy, PartialEq, Eq, Debug)]
pub struct Code {
    pub cause: u8,
    pub layer: u8,
}

impl Code {
    pub fn new(cause: u8, layer: u8) -> Code
        ensures { result ≡ coded cause layer }
    {
        Code { cause, layer }
    }
}

// A theory's refusal, with the layer of the pile of theories that it comes from, 1 for the top.
#[derive(Clone, Copy, PartialEq, Eq, Debug)]
pub enum TheoryFault {
    Input(InputCause, u8),
    State(StateCause, u8),
}

// A session's refusal: its own, or what came up from its theory.
#[derive(Clone, Copy, PartialEq, Eq, Debug)]
pub enum SessionFault {
    Input(InputCause),
    State(StateCause),
    Theory(TheoryFault),
}

// What is wrong with a file: its form, or a call that the session refuses.
#[derive(Clone, Copy, PartialEq, Eq, Debug)]
pub enum FileFault {
    Input(InputCause),
    Session(SessionFault),
}

impl From<TheoryFault> for SessionFault {
    ghost from_gives = { λ a b. b ≡ Theory a };

    fn from(f: TheoryFault) -> SessionFault {
        SessionFault::Theory(f)
    }
}

impl From<SessionFault> for FileFault {
    ghost from_gives = { λ a b. b ≡ Session a };

    fn from(f: SessionFault) -> FileFault {
        FileFault::Session(f)
    }
}

impl InputCause {
    pub fn number(self) -> u8
        ensures { result ≡ input_number self }
    {
        self as u8
    }
}

impl StateCause {
    pub fn number(self) -> u8
        ensures { result ≡ state_number self }
    {
        self as u8
    }
}

// The layer below a given one; the last is 255.
pub fn below(layer: u8) -> u8
    ensures { result ≡ one_lower layer }
{
    layer.saturating_add(1)
}

impl TheoryFault {
    pub fn code(self) -> Code
        ensures { result ≡ theory_code self }
    {
        match self {
            TheoryFault::Input(c, layer) => Code::new(c.number(), layer),
            TheoryFault::State(c, layer) => Code::new(c.number(), layer),
        }
    }

    // The same fault as it comes up through one more layer.
    pub fn raise(self) -> TheoryFault
        ensures { result ≡ raised self }
    {
        match self {
            TheoryFault::Input(c, layer) => TheoryFault::Input(c, below(layer)),
            TheoryFault::State(c, layer) => TheoryFault::State(c, below(layer)),
        }
    }
}

impl SessionFault {
    pub fn code(self) -> Code
        ensures { result ≡ session_code self }
    {
        match self {
            SessionFault::Input(c) => Code::new(c.number(), 0),
            SessionFault::State(c) => Code::new(c.number(), 0),
            SessionFault::Theory(f) => f.code(),
        }
    }
}

impl FileFault {
    pub fn code(self) -> Code
        ensures { result ≡ file_code self }
    {
        match self {
            FileFault::Input(c) => Code::new(c.number(), 0),
            FileFault::Session(f) => f.code(),
        }
    }
}
