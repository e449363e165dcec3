// Cases at the limits, which are made by loops, and files and buffers that are cut.
use crate::making::File;
use crate::trials::{CLAIM, SEAL};
use crate::{FILL, Tally};
use checker::check;
use std::alloc::{AllocError, Global};
use std::io;

const NONE: &[u8] = b"none\n";

// A file that opens with the counts of switches and measures.
fn counted(heap: Global, switches: u8, measures: u8) -> Result<File, AllocError> {
    File::of(heap, &[&[1, switches, measures]])
}

// Files that cannot be read.
fn try_cut_files(tally: &mut Tally) -> io::Result<()> {
    tally.expect(
        "an empty case (1)",
        1,
        &[],
        &[1],
        b"refused 1 file 1 record 0 byte 0 layer 0\n",
    )?;
    tally.expect(
        "a log of version 2 (1)",
        1,
        &[1],
        &[2],
        b"refused 1 file 2 record 0 byte 0 layer 0\n",
    )?;
    tally.expect(
        "a length that is cut short (3)",
        1,
        &[1, 0],
        &[1],
        b"refused 3 file 1 record 1 byte 1 layer 0\n",
    )?;
    tally.expect(
        "a length of 0 (3)",
        1,
        &[1, 0, 0],
        &[1],
        b"refused 3 file 1 record 1 byte 1 layer 0\n",
    )?;
    tally.expect(
        "a record beyond the end (3)",
        1,
        &[1, 0, 2, 1],
        &[1],
        b"refused 3 file 1 record 1 byte 1 layer 0\n",
    )
}

// A case of so many bytes: its second record is a rule of too many literals.
fn try_case_of(tally: &mut Tally, name: &str, literals: usize, expected: &[u8]) -> io::Result<()> {
    let mut case = counted(tally.heap(), 1, 0)?;
    case.push_filled(tally.heap(), 4, 1, literals)?;
    tally.expect(name, 1, case.bytes(), &[1], expected)
}

// A log of so many bytes: its second record is a lemma of no literals, with a hint that is too long.
fn try_log_of(tally: &mut Tally, name: &str, bytes: usize, expected: &[u8]) -> io::Result<()> {
    let case = counted(tally.heap(), 1, 0)?;
    let mut log = File::of(tally.heap(), &[SEAL])?;
    log.push_filled(tally.heap(), 11, 0, bytes)?;
    tally.expect(name, 1, case.bytes(), log.bytes(), expected)
}

fn try_long_files(tally: &mut Tally) -> io::Result<()> {
    try_case_of(
        tally,
        "a case of 20,000 bytes: its rule is too long (8)",
        19_991,
        b"refused 8 file 1 record 2 byte 6 layer 0\n",
    )?;
    try_case_of(
        tally,
        "a case of 20,001 bytes (2)",
        19_992,
        b"refused 2 file 1 record 0 byte 0 layer 0\n",
    )?;
    try_log_of(
        tally,
        "a log of 40,000 bytes: its hint is of no kind (6)",
        39_989,
        b"refused 6 file 2 record 2 byte 8 layer 1\n",
    )?;
    try_log_of(
        tally,
        "a log of 40,001 bytes (2)",
        39_990,
        b"refused 2 file 2 record 0 byte 0 layer 0\n",
    )
}

// A case of counts and then so many times one record.
fn try_many(
    tally: &mut Tally,
    name: &str,
    counts: (u8, u8),
    entry: &[u8],
    times: usize,
    expected: &[u8],
) -> io::Result<()> {
    let mut case = counted(tally.heap(), counts.0, counts.1)?;
    for _ in 0..times {
        case.push(entry)?;
    }
    tally.expect(name, 2, case.bytes(), &[1], expected)
}

// Tables that are just full, and one more.
fn try_full_tables(tally: &mut Tally) -> io::Result<()> {
    // 0 <= 0, and an application of one argument
    let atom: &[u8] = &[3, 2, 0, 0, 0, 0, 0];
    let application: &[u8] = &[2, 3, 1, 1, 1, 1];
    try_many(tally, "127 numbers, all switches", (127, 0), &[4], 1, NONE)?;
    try_many(tally, "127 numbers, one an atom", (126, 0), atom, 1, NONE)?;
    try_many(
        tally,
        "128 numbers (21)",
        (126, 0),
        atom,
        2,
        b"refused 21 file 1 record 3 byte 15 layer 0\n",
    )?;
    try_many(tally, "250 clauses", (0, 0), &[4], 250, NONE)?;
    try_many(
        tally,
        "251 clauses (21)",
        (0, 0),
        &[4],
        251,
        b"refused 21 file 1 record 252 byte 756 layer 0\n",
    )?;
    try_many(tally, "32 applications", (0, 1), application, 32, NONE)?;
    try_many(
        tally,
        "33 applications (21)",
        (0, 1),
        application,
        33,
        b"refused 21 file 1 record 34 byte 262 layer 1\n",
    )?;
    try_many(
        tally,
        "16 literals",
        (16, 0),
        &[4, 1, 2, 3, 4, 5, 6, 7, 8, 9, 10, 11, 12, 13, 14, 15, 16],
        1,
        NONE,
    )?;
    try_many(
        tally,
        "17 literals (8)",
        (17, 0),
        &[4, 1, 2, 3, 4, 5, 6, 7, 8, 9, 10, 11, 12, 13, 14, 15, 16, 17],
        1,
        b"refused 8 file 1 record 2 byte 6 layer 0\n",
    )
}

// Two clauses of 16 literals that meet in one number: resolved they have 30.
fn try_long_resolvent(tally: &mut Tally) -> io::Result<()> {
    let mut case = counted(tally.heap(), 31, 0)?;
    case.push(&[4, 1, 2, 3, 4, 5, 6, 7, 8, 9, 10, 11, 12, 13, 14, 15, 16])?;
    case.push(&[
        4, 240, 17, 18, 19, 20, 21, 22, 23, 24, 25, 26, 27, 28, 29, 30, 31,
    ])?;
    let mut log = File::of(tally.heap(), &[SEAL])?;
    for denial in 225..=255 {
        if denial != 240 {
            log.push(&[12, denial])?;
        }
    }
    log.push(&[14, 2, 240])?;
    log.push(&[16, 1])?;
    log.push(&[17, 16])?;
    tally.expect(
        "a resolvent of 30 literals (29)",
        1,
        case.bytes(),
        log.bytes(),
        b"refused 29 file 2 record 34 byte 137 layer 0\n",
    )
}

// The longest report: 127 switches that are on, and 16 measures with the longest numerators and the longest denominator.
fn try_longest_report(tally: &mut Tally) -> io::Result<()> {
    let case = counted(tally.heap(), 127, 16)?;
    let mut log = File::of(tally.heap(), &[&[10, 0, 15, 66, 64]])?;
    let mut expected = Vec::new(tally.heap());
    expected.extend_from_slice(b"possible 1000000\n")?;
    for number in 1..=127 {
        log.push(&[12, number])?;
        push_line(&mut expected, b's', number, b" yes\n")?;
    }
    for number in 1..=16 {
        log.push(&[13, number, 196, 101, 54, 0])?;
        push_line(&mut expected, b'm', number, b" -1000000000\n")?;
    }
    log.push(CLAIM)?;
    tally.expect(
        "the longest report",
        2,
        case.bytes(),
        log.bytes(),
        expected.as_slice(),
    )
}

// A letter and a number of three digits at most, and then what stands behind them.
fn push_line(line: &mut Vec<u8>, letter: u8, number: u8, end: &[u8]) -> Result<(), AllocError> {
    line.push(letter)?;
    if number >= 100 {
        line.push(b'0' + number / 100)?;
    }
    if number >= 10 {
        line.push(b'0' + number / 10 % 10)?;
    }
    line.push(b'0' + number % 10)?;
    line.extend_from_slice(end)
}

// A buffer of one byte less than a report needs stays as it is (9).
fn try_short_buffer(tally: &mut Tally) -> io::Result<()> {
    let mut report = [FILL; 2_047];
    let n = check(1, &[1], &[1], &mut report);
    let is_kept = n == 0 && report.iter().all(|b| *b == FILL);
    tally.count(
        "a buffer of 2,047 bytes: nothing is written (9)",
        b"",
        b"",
        is_kept,
    )
}

pub fn try_all(tally: &mut Tally) -> io::Result<()> {
    try_cut_files(tally)?;
    try_long_files(tally)?;
    try_full_tables(tally)?;
    try_long_resolvent(tally)?;
    try_longest_report(tally)?;
    try_short_buffer(tally)
}
