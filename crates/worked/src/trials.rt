// Worked cases, as tables of records. Each table has a function of its own, since a table with all of them is more than the
// prover takes at once.
use crate::Tally;
use std::io;

// The records of a case and of a log, each a kind and a body, and the report.
pub struct Trial<'a> {
    pub name: &'a str,
    pub theory: u8,
    pub case: &'a [&'a [u8]],
    pub log: &'a [&'a [u8]],
    pub report: &'a [u8],
}

// The literals that deny the numbers 1 to 4.
const NOT_1: u8 = 255;

const NOT_2: u8 = 254;

const NOT_3: u8 = 253;

const NOT_4: u8 = 252;

// Records of a log: seal with the denominator 1, concede, claim and abandon.
pub const SEAL: &[u8] = &[10, 0, 0, 0, 1];

const CONCEDE: &[u8] = &[19];

pub const CLAIM: &[u8] = &[20];

const ABANDON: &[u8] = &[21];

// Atoms: m1 + m2 <= 60, m1 < 50, m2 < 12.
const FIT_IN_60: &[u8] = &[3, 2, 2, 1, 0, 0, 0, 1, 2, 0, 0, 0, 1, 0, 0, 0, 60];

const BELOW_50: &[u8] = &[3, 1, 1, 1, 0, 0, 0, 1, 0, 0, 0, 50];

const BELOW_12: &[u8] = &[3, 1, 1, 2, 0, 0, 0, 1, 0, 0, 0, 12];

// m1 = 3, m1 < 3, -m1 < -3.
const IS_3: &[u8] = &[3, 3, 1, 1, 0, 0, 0, 1, 0, 0, 0, 3];

const BELOW_3: &[u8] = &[3, 1, 1, 1, 0, 0, 0, 1, 0, 0, 0, 3];

const ABOVE_3: &[u8] = &[3, 1, 1, 1, 255, 255, 255, 255, 255, 255, 255, 253];

// m1 < 2, -m1 < -5.
const BELOW_2: &[u8] = &[3, 1, 1, 1, 0, 0, 0, 1, 0, 0, 0, 2];

const ABOVE_5: &[u8] = &[3, 1, 1, 1, 255, 255, 255, 255, 255, 255, 255, 251];

// f(m1) = m2, f(m3) = m4, and the atoms m1 = m3, m2 = m4.
const MAPS_1_TO_2: &[u8] = &[2, 3, 7, 1, 1, 2];

const MAPS_3_TO_4: &[u8] = &[2, 3, 7, 1, 3, 4];

const EQUAL_1_3: &[u8] = &[3, 3, 2, 1, 0, 0, 0, 1, 3, 255, 255, 255, 255, 0, 0, 0, 0];

const EQUAL_2_4: &[u8] = &[3, 3, 2, 2, 0, 0, 0, 1, 4, 255, 255, 255, 255, 0, 0, 0, 0];

// A wall of 60 for two parts and one switch: they fit, the first is at least 50, and the second at least 12 if the switch
// is off; in the full wall also if it is on.
const WALL: &[&[u8]] = &[
    &[1, 1, 2],
    FIT_IN_60,
    BELOW_50,
    BELOW_12,
    &[4, 2],
    &[4, NOT_3],
    &[4, 1, NOT_4],
];

const FULL_WALL: &[&[u8]] = &[
    &[1, 1, 2],
    FIT_IN_60,
    BELOW_50,
    BELOW_12,
    &[4, 2],
    &[4, NOT_3],
    &[4, 1, NOT_4],
    &[4, NOT_1, NOT_4],
];

const THREE: &[&[u8]] = &[&[1, 0, 1], IS_3, BELOW_3, ABOVE_3];

const MAPPED: &[&[u8]] = &[&[1, 0, 4], MAPS_1_TO_2, MAPS_3_TO_4, EQUAL_1_3, EQUAL_2_4];

// One switch and the rule that it is on; and two switches of which one is on.
const ONE_ON: &[&[u8]] = &[&[1, 1, 0], &[4, 1]];

const SOME_ON: &[&[u8]] = &[&[1, 2, 0], &[4, 1, 2]];

// The wall: whether its parts fit.
const WALLS: &[Trial] = &[
    Trial {
        name: "the full wall",
        theory: 2,
        case: FULL_WALL,
        log: &[
            SEAL,
            &[14, 1, 2],
            &[14, 2, NOT_3],
            &[12, 1],
            &[14, 4, NOT_4],
            &[11, 3, NOT_2, 3, 4, 1, 0, 0, 0, 1, 0, 0, 0, 1, 0, 0, 0, 1],
            &[16, 5],
            &[17, 4],
            &[18, NOT_1],
            &[14, 3, NOT_4],
            &[16, 5],
            CONCEDE,
        ],
        report: b"impossible\n",
    },
    Trial {
        name: "the full wall, its lemma with a multiplier of 0",
        theory: 2,
        case: FULL_WALL,
        log: &[
            SEAL,
            &[14, 1, 2],
            &[14, 2, NOT_3],
            &[12, 1],
            &[14, 4, NOT_4],
            &[11, 3, NOT_2, 3, 4, 1, 0, 0, 0, 1, 0, 0, 0, 1, 0, 0, 0, 0],
        ],
        report: b"refused 31 file 2 record 6 byte 27 layer 2\n",
    },
    Trial {
        name: "the wall, its second part too long (26)",
        theory: 2,
        case: WALL,
        log: &[
            SEAL,
            &[14, 1, 2],
            &[14, 2, NOT_3],
            &[12, 1],
            &[13, 1, 0, 0, 0, 50],
            &[13, 2, 0, 0, 0, 11],
        ],
        report: b"refused 26 file 2 record 6 byte 30 layer 0\n",
    },
    Trial {
        name: "the wall, its second part short enough",
        theory: 2,
        case: WALL,
        log: &[
            SEAL,
            &[14, 1, 2],
            &[14, 2, NOT_3],
            &[12, 1],
            &[13, 1, 0, 0, 0, 50],
            &[13, 2, 0, 0, 0, 10],
            CLAIM,
        ],
        report: b"possible 1\ns1 yes\nm1 50\nm2 10\n",
    },
];

// Clauses that the theory vouches for or not, and values that it does not admit.
const VOUCHINGS: &[Trial] = &[
    Trial {
        name: "a split is vouched for",
        theory: 2,
        case: THREE,
        log: &[SEAL, &[11, 3, 1, 2, 3, 2]],
        report: b"none\n",
    },
    Trial {
        name: "and is not without its last part",
        theory: 2,
        case: THREE,
        log: &[SEAL, &[11, 2, 1, 2, 2]],
        report: b"refused 31 file 2 record 2 byte 8 layer 2\n",
    },
    Trial {
        name: "equal arguments have equal results",
        theory: 2,
        case: MAPPED,
        log: &[SEAL, &[11, 2, NOT_1, 2, 3, 1, 2]],
        report: b"none\n",
    },
    Trial {
        name: "others need not",
        theory: 2,
        case: MAPPED,
        log: &[SEAL, &[11, 1, 2, 3, 1, 2]],
        report: b"refused 31 file 2 record 2 byte 8 layer 1\n",
    },
    Trial {
        name: "values that give equal arguments two results (34)",
        theory: 2,
        case: MAPPED,
        log: &[
            SEAL,
            &[13, 1, 0, 0, 0, 0],
            &[13, 2, 0, 0, 0, 0],
            &[13, 3, 0, 0, 0, 0],
            &[13, 4, 0, 0, 0, 1],
            CLAIM,
        ],
        report: b"refused 34 file 2 record 6 byte 40 layer 1\n",
    },
];

// Readings, jumps and conflicts.
const ANALYSES: &[Trial] = &[
    Trial {
        name: "a jump that chooses a literal in place of a value",
        theory: 2,
        case: &[&[1, 0, 1], BELOW_2, ABOVE_5, &[4, 1, 2]],
        log: &[
            SEAL,
            &[13, 1, 0, 0, 0, 3],
            &[15, 1],
            &[15, 2],
            &[16, 1],
            &[18, 1],
        ],
        report: b"none\n",
    },
    Trial {
        name: "and the level of that literal is not 0",
        theory: 2,
        case: &[&[1, 0, 1], BELOW_2, ABOVE_5, &[4, 1, 2], &[4, NOT_1]],
        log: &[
            SEAL,
            &[13, 1, 0, 0, 0, 3],
            &[15, 1],
            &[15, 2],
            &[16, 1],
            &[18, 1],
            &[16, 2],
            CONCEDE,
        ],
        report: b"refused 30 file 2 record 8 byte 36 layer 0\n",
    },
    Trial {
        name: "an empty rule is conceded",
        theory: 2,
        case: &[&[1, 0, 0], &[4]],
        log: &[SEAL, &[16, 1], CONCEDE],
        report: b"impossible\n",
    },
    Trial {
        name: "an application matched with itself, for the empty clause",
        theory: 2,
        case: MAPPED,
        log: &[SEAL, &[11, 0, 3, 1, 1]],
        report: b"refused 31 file 2 record 2 byte 8 layer 1\n",
    },
    Trial {
        name: "a reading at a low level stays over a jump (23)",
        theory: 2,
        case: &[&[1, 2, 1], BELOW_3, &[4, 1, NOT_3]],
        log: &[
            SEAL,
            &[13, 1, 0, 0, 0, 2],
            &[12, NOT_1],
            &[15, 3],
            &[16, 1],
            &[18, 1],
            &[15, 3],
        ],
        report: b"refused 23 file 2 record 7 byte 32 layer 0\n",
    },
];

// How a log ends.
const ENDS: &[Trial] = &[
    Trial {
        name: "a log that ends unclosed",
        theory: 1,
        case: ONE_ON,
        log: &[],
        report: b"none\n",
    },
    Trial {
        name: "a search that is abandoned",
        theory: 1,
        case: ONE_ON,
        log: &[SEAL, ABANDON],
        report: b"none\n",
    },
    Trial {
        name: "switches only, possible",
        theory: 1,
        case: SOME_ON,
        log: &[SEAL, &[12, 1], CLAIM],
        report: b"possible 1\ns1 yes\ns2 no\n",
    },
    Trial {
        name: "a theory that there is not (6)",
        theory: 3,
        case: ONE_ON,
        log: &[],
        report: b"refused 6 file 0 record 0 byte 0 layer 0\n",
    },
];

// Records that are no calls, or have the wrong length.
const FORMS: &[Trial] = &[
    Trial {
        name: "a kind that there is not (4)",
        theory: 1,
        case: &[&[9]],
        log: &[],
        report: b"refused 4 file 1 record 1 byte 1 layer 0\n",
    },
    Trial {
        name: "a rule in a log (4)",
        theory: 1,
        case: ONE_ON,
        log: &[&[4, 1]],
        report: b"refused 4 file 2 record 1 byte 1 layer 0\n",
    },
    Trial {
        name: "counts with one number (5)",
        theory: 1,
        case: &[&[1, 0]],
        log: &[],
        report: b"refused 5 file 1 record 1 byte 1 layer 0\n",
    },
    Trial {
        name: "an atom without a body (5)",
        theory: 2,
        case: &[&[1, 0, 1], &[3]],
        log: &[],
        report: b"refused 5 file 1 record 2 byte 6 layer 2\n",
    },
];

// Numbers at the end of their range, and beyond.
const RANGES: &[Trial] = &[
    Trial {
        name: "128 switches (6)",
        theory: 2,
        case: &[&[1, 128, 0]],
        log: &[],
        report: b"refused 6 file 1 record 1 byte 1 layer 0\n",
    },
    Trial {
        name: "17 measures (6)",
        theory: 2,
        case: &[&[1, 0, 17]],
        log: &[],
        report: b"refused 6 file 1 record 1 byte 1 layer 2\n",
    },
    Trial {
        name: "a measure, over switches only (6)",
        theory: 1,
        case: &[&[1, 0, 1]],
        log: &[],
        report: b"refused 6 file 1 record 1 byte 1 layer 1\n",
    },
    Trial {
        name: "the coefficient 100,000,001 (6)",
        theory: 2,
        case: &[&[1, 0, 1], &[3, 1, 1, 1, 5, 245, 225, 1, 0, 0, 0, 0]],
        log: &[],
        report: b"refused 6 file 1 record 2 byte 6 layer 2\n",
    },
    Trial {
        name: "the coefficient 100,000,000",
        theory: 2,
        case: &[&[1, 0, 1], &[3, 1, 1, 1, 5, 245, 225, 0, 0, 0, 0, 0]],
        log: &[],
        report: b"none\n",
    },
];

// Literals that are none, and calls out of their phase.
const LITERALS: &[Trial] = &[
    Trial {
        name: "the literal 0 (7)",
        theory: 1,
        case: &[&[1, 1, 0], &[4, 0]],
        log: &[],
        report: b"refused 7 file 1 record 2 byte 6 layer 0\n",
    },
    Trial {
        name: "the literal -128 (7)",
        theory: 1,
        case: ONE_ON,
        log: &[SEAL, &[12, 128]],
        report: b"refused 7 file 2 record 2 byte 8 layer 0\n",
    },
    Trial {
        name: "a number twice in a clause (8)",
        theory: 1,
        case: &[&[1, 1, 0], &[4, 1, NOT_1]],
        log: &[],
        report: b"refused 8 file 1 record 2 byte 6 layer 0\n",
    },
    Trial {
        name: "a choice before seal (20)",
        theory: 1,
        case: ONE_ON,
        log: &[&[12, 1]],
        report: b"refused 20 file 2 record 1 byte 1 layer 0\n",
    },
    Trial {
        name: "a choice after the end (20)",
        theory: 1,
        case: ONE_ON,
        log: &[SEAL, ABANDON, &[12, 1]],
        report: b"refused 20 file 2 record 3 byte 11 layer 0\n",
    },
];

// Steps that the search does not allow.
const SEARCHES: &[Trial] = &[
    Trial {
        name: "a number that there is not (22)",
        theory: 1,
        case: ONE_ON,
        log: &[SEAL, &[15, 9]],
        report: b"refused 22 file 2 record 2 byte 8 layer 0\n",
    },
    Trial {
        name: "a switch that is chosen twice (23)",
        theory: 1,
        case: ONE_ON,
        log: &[SEAL, &[12, 1], &[12, NOT_1]],
        report: b"refused 23 file 2 record 3 byte 12 layer 0\n",
    },
    Trial {
        name: "a switch that is read (24)",
        theory: 1,
        case: ONE_ON,
        log: &[SEAL, &[15, 1]],
        report: b"refused 24 file 2 record 2 byte 8 layer 0\n",
    },
    Trial {
        name: "a clause that does not force its literal (25)",
        theory: 1,
        case: SOME_ON,
        log: &[SEAL, &[14, 1, 1]],
        report: b"refused 25 file 2 record 2 byte 8 layer 0\n",
    },
    Trial {
        name: "a conflict with a clause that is not false (27)",
        theory: 1,
        case: ONE_ON,
        log: &[SEAL, &[16, 1]],
        report: b"refused 27 file 2 record 2 byte 8 layer 0\n",
    },
];

// Analyses and claims that are not allowed.
const ENDINGS: &[Trial] = &[
    Trial {
        name: "a choice that is resolved (28)",
        theory: 1,
        case: ONE_ON,
        log: &[SEAL, &[12, NOT_1], &[16, 1], &[17, 1]],
        report: b"refused 28 file 2 record 4 byte 16 layer 0\n",
    },
    Trial {
        name: "conceded at level 1 (30)",
        theory: 1,
        case: ONE_ON,
        log: &[SEAL, &[12, NOT_1], &[16, 1], CONCEDE],
        report: b"refused 30 file 2 record 4 byte 16 layer 0\n",
    },
    Trial {
        name: "a jump from level 0 (30)",
        theory: 1,
        case: &[&[1, 1, 0], &[4, 1], &[4, NOT_1]],
        log: &[SEAL, &[14, 1, 1], &[16, 2], &[18, NOT_1]],
        report: b"refused 30 file 2 record 4 byte 17 layer 0\n",
    },
    Trial {
        name: "a claim without a value (32)",
        theory: 2,
        case: &[&[1, 0, 1]],
        log: &[SEAL, CLAIM],
        report: b"refused 32 file 2 record 2 byte 8 layer 0\n",
    },
    Trial {
        name: "a claim that leaves a rule unmet (33)",
        theory: 1,
        case: ONE_ON,
        log: &[SEAL, CLAIM],
        report: b"refused 33 file 2 record 2 byte 8 layer 0\n",
    },
];

fn try_walls(tally: &mut Tally) -> io::Result<()> {
    tally.try_table(WALLS)
}

fn try_vouchings(tally: &mut Tally) -> io::Result<()> {
    tally.try_table(VOUCHINGS)
}

fn try_analyses(tally: &mut Tally) -> io::Result<()> {
    tally.try_table(ANALYSES)
}

fn try_ends(tally: &mut Tally) -> io::Result<()> {
    tally.try_table(ENDS)
}

fn try_forms(tally: &mut Tally) -> io::Result<()> {
    tally.try_table(FORMS)
}

fn try_ranges(tally: &mut Tally) -> io::Result<()> {
    tally.try_table(RANGES)
}

fn try_literals(tally: &mut Tally) -> io::Result<()> {
    tally.try_table(LITERALS)
}

fn try_searches(tally: &mut Tally) -> io::Result<()> {
    tally.try_table(SEARCHES)
}

fn try_endings(tally: &mut Tally) -> io::Result<()> {
    tally.try_table(ENDINGS)
}

pub fn try_all(tally: &mut Tally) -> io::Result<()> {
    try_walls(tally)?;
    try_vouchings(tally)?;
    try_analyses(tally)?;
    try_ends(tally)?;
    try_forms(tally)?;
    try_ranges(tally)?;
    try_literals(tally)?;
    try_searches(tally)?;
    try_endings(tally)
}
