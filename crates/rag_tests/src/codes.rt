// Sets of codes, and the codes of the rules and the fault that counts.
use broken_rules::{Broken, Earliest, ReadFault, Rule};
use code_sets::{Code, Codes};
use rag_io::{Memory, Place};
use std::alloc::{AllocError, Global};
use std::fmt::Write;
use std::test::Fail;

// The codes of a list, put in one by one.
fn set_of(alloc: Global, list: &[Code]) -> Result<Codes, Memory> {
    let mut codes = Codes::none(alloc);
    for code in list {
        let one = Codes::one(alloc, *code)?;
        codes.add(&one)?;
    }
    Ok(codes)
}

// Two sets, some of whose codes share a word.
const SETS: [(&[Code], &[Code]); 8] = [
    (&[], &[]),
    (&[], &[7]),
    (&[7], &[]),
    (&[3, 1, 2, 1], &[2, 4]),
    (&[0, 4294967295], &[4294967295, 64]),
    (&[5, 6], &[6, 5]),
    (&[64, 63], &[63, 65]),
    (&[4294967294, 4294967231], &[4294967295, 4294967294]),
];

// How many codes each first set has, either, both, and the first alone, and which; and whether the first is empty, whether it has 8, and whether it is
// the same as itself and as the second. The last line is of a set to which words are added.
const MADE: &str = "\
    0: | 0: | 0: | 0: | (true, false, true, true)\n\
    0: | 1: 7 | 0: | 0: | (true, false, true, false)\n\
    1: 7 | 1: 7 | 0: | 1: 7 | (false, false, true, false)\n\
    3: 1 2 3 | 4: 1 2 3 4 | 1: 2 | 2: 1 3 | (false, false, true, false)\n\
    2: 0 4294967295 | 3: 0 64 4294967295 | 1: 4294967295 | 1: 0 | (false, false, true, false)\n\
    2: 5 6 | 2: 5 6 | 2: 5 6 | 0: | (false, false, true, true)\n\
    2: 63 64 | 3: 63 64 65 | 1: 63 | 1: 64 | (false, false, true, false)\n\
    2: 4294967231 4294967294 | 3: 4294967231 4294967294 4294967295 | 1: 4294967294 | 1: 4294967231 | (false, false, true, false)\n\
    5: 63 64 66 67 4294967295 | ";

// Writes the codes of a set that was made, and a sign behind one that it hasn't.
fn write_codes(
    alloc: Global,
    text: &mut String,
    made: Result<Codes, Memory>,
) -> Result<(), ReadFault> {
    let made = made?;
    write!(text, "{}: ", made.len())?;
    for code in &made.list(alloc)? {
        let sign = if made.has(*code) { "" } else { "!" };
        write!(text, "{code}{sign} ")?;
    }
    text.push_str("| ")?;
    Ok(())
}

// Writes what two sets make.
fn write_made(
    alloc: Global,
    text: &mut String,
    left: &Codes,
    right: &Codes,
) -> Result<(), ReadFault> {
    write_codes(alloc, text, left.copy())?;
    write_codes(alloc, text, left.union(right))?;
    write_codes(alloc, text, left.inter(alloc, right))?;
    write_codes(alloc, text, left.minus(alloc, right))?;
    let is_same = (left.same(left), left.same(right));
    let first = (left.is_empty(), left.has(8), is_same.0, is_same.1);
    writeln!(text, "{first:?}")?;
    Ok(())
}

// A set to which words are added.
fn with_words(alloc: Global) -> Result<Codes, Memory> {
    let mut codes = set_of(alloc, &[63, 66])?;
    codes.add_word(1, 0b1101)?;
    codes.add_word(67108863, 1 << 63)?;
    codes.add_word(5, 0)?;
    Ok(codes)
}

fn made_text(alloc: Global) -> Result<String, ReadFault> {
    let mut text = String::new(alloc);
    for (left, right) in &SETS {
        let left = set_of(alloc, left)?;
        let right = set_of(alloc, right)?;
        write_made(alloc, &mut text, &left, &right)?;
    }
    write_codes(alloc, &mut text, with_words(alloc))?;
    Ok(text)
}

#[test]
fn sets_are_made_of_two(rt: HostRuntime) -> Result<(), Fail> {
    assert_eq!(rt; made_text(rt.alloc())?.as_str(), MADE);
    Ok(())
}

const RULES: [Rule; 50] = [
    Rule::G1,
    Rule::G2,
    Rule::G3,
    Rule::G4,
    Rule::G5,
    Rule::G6,
    Rule::G7,
    Rule::G8,
    Rule::G9,
    Rule::G10,
    Rule::J1,
    Rule::J2,
    Rule::J3,
    Rule::J4,
    Rule::J5,
    Rule::J6,
    Rule::J7,
    Rule::J8,
    Rule::J9,
    Rule::J10,
    Rule::J11,
    Rule::J12,
    Rule::J13,
    Rule::J14,
    Rule::J15,
    Rule::J16,
    Rule::J17,
    Rule::M1,
    Rule::M2,
    Rule::M3,
    Rule::M4,
    Rule::M5,
    Rule::N1,
    Rule::N2,
    Rule::N3,
    Rule::N4,
    Rule::N5,
    Rule::N6,
    Rule::N7,
    Rule::Q1,
    Rule::Q2,
    Rule::Q3,
    Rule::Q4,
    Rule::T1,
    Rule::T2,
    Rule::T3,
    Rule::T4,
    Rule::T5,
    Rule::T6,
    Rule::T7,
];

// Each rule is written by its code, and they are numbered in this order.
const CODES: &str =
    "G1 G1 0 G2 G2 1 G3 G3 2 G4 G4 3 G5 G5 4 G6 G6 5 G7 G7 6 G8 G8 7 G9 G9 8 G10 G10 9 J1 J1 10 J2 J2 11 J3 J3 12 J4 J4 13 J5 J5 14 J6 J6 15 J7 J7 16 J8 J8 17 J9 J9 18 J10 J10 19 J11 J11 20 J12 J12 21 J13 J13 22 J14 J14 23 J15 J15 24 J16 J16 25 J17 J17 26 M1 M1 27 M2 M2 28 M3 M3 29 M4 M4 30 M5 M5 31 N1 N1 32 N2 N2 33 N3 N3 34 N4 N4 35 N5 N5 36 N6 N6 37 N7 N7 38 Q1 Q1 39 Q2 Q2 40 Q3 Q3 41 Q4 Q4 42 T1 T1 43 T2 T2 44 T3 T3 45 T4 T4 46 T5 T5 47 T6 T6 48 T7 T7 49 ";

fn rules_text(alloc: Global) -> Result<String, AllocError> {
    let mut text = String::new(alloc);
    for rule in &RULES {
        write!(text, "{rule} {rule:?} {} ", rule.number())?;
    }
    Ok(text)
}

#[test]
fn rules_are_written_by_their_codes(rt: HostRuntime) -> Result<(), Fail> {
    assert_eq!(rt; rules_text(rt.alloc())?.as_str(), CODES);
    Ok(())
}

const LINE: Broken = Broken {
    rule: Rule::T7,
    place: Place { line: 2, column: 9 },
};

const COLUMN: Broken = Broken {
    rule: Rule::J2,
    place: Place { line: 3, column: 4 },
};

const LOWEST: Broken = Broken {
    rule: Rule::G10,
    place: Place { line: 3, column: 5 },
};

const HIGHEST: Broken = Broken {
    rule: Rule::J1,
    place: Place { line: 3, column: 5 },
};

// What counts of what is noted in this order.
const NOTED: [(Option<Broken>, &[Broken]); 18] = [
    (Some(LINE), &[LINE, COLUMN]),
    (Some(LINE), &[COLUMN, LINE]),
    (Some(LINE), &[LINE, LOWEST]),
    (Some(LINE), &[LOWEST, LINE]),
    (Some(LINE), &[LINE, HIGHEST]),
    (Some(LINE), &[HIGHEST, LINE]),
    (Some(COLUMN), &[COLUMN, LOWEST]),
    (Some(COLUMN), &[LOWEST, COLUMN]),
    (Some(COLUMN), &[COLUMN, HIGHEST]),
    (Some(COLUMN), &[HIGHEST, COLUMN]),
    (Some(LOWEST), &[LOWEST, HIGHEST]),
    (Some(LOWEST), &[HIGHEST, LOWEST]),
    (Some(LOWEST), &[LOWEST, LOWEST]),
    (Some(LINE), &[LINE, COLUMN, HIGHEST, LOWEST]),
    (Some(LINE), &[LOWEST, HIGHEST, COLUMN, LINE]),
    (Some(LINE), &[LINE, HIGHEST, LOWEST, COLUMN]),
    (Some(LINE), &[COLUMN, LOWEST, HIGHEST, LINE]),
    (None, &[]),
];

fn first_of(noted: &[Broken]) -> Option<Broken> {
    let mut earliest = Earliest::new();
    for broken in noted {
        earliest.note(broken.rule, broken.place);
    }
    earliest.found()
}

fn lacking(alloc: Global) -> Result<Vec<u8>, ReadFault> {
    Ok(Vec::with_capacity(alloc, usize::MAX)?)
}

// The first row where another fault counts.
fn other_noted() -> Option<usize> {
    for (k, (want, noted)) in NOTED.iter().enumerate() {
        if first_of(noted) != *want {
            return Some(k);
        }
    }
    None
}

#[test]
fn the_earliest_fault_counts(rt: HostRuntime) {
    assert_eq!(rt; other_noted(), None);
    let mut earliest = Earliest::new();
    earliest.note_if(false, LINE.rule, LINE.place);
    let before = earliest.answer();
    earliest.note_if(true, LINE.rule, LINE.place);
    let broken = Err(ReadFault::Broken(LINE));
    assert_eq!(rt; (before, earliest.answer()), (Ok(()), broken));
    // Want of memory is a fault of its own.
    let lacking = (ReadFault::from(Memory), lacking(rt.alloc()).err());
    assert_eq!(rt; lacking, (ReadFault::Memory, Some(ReadFault::Memory)));
}
