// The cases, in groups, and how they are run.
use super::cases::Damage::*;
use super::cases::Spot::*;
use super::cases::*;
use super::chart_file::{BODY_AT, LEG_RECORD, NAME_AT};
use super::compare::is_as_expected;
use super::verdict::Verdict;
use super::verdict::Verdict::*;
use reader::Counts;
use std::alloc::{AllocError, Global};

// The damage at every spot of every shape, and the verdict on the file after it.
#[derive(Clone, Copy)]
struct Group(Verdict, &'static [Counts], &'static [Spot], Damage);

const SMALLEST: Counts = Counts { fixes: 2, legs: 0 };

const SMALL: Counts = Counts { fixes: 8, legs: 5 };

const LARGEST: Counts = Counts {
    fixes: 200,
    legs: 1000,
};

const ALL: [Counts; 3] = [SMALLEST, SMALL, LARGEST];

const BOTH: [Counts; 2] = [SMALL, LARGEST];

const MARKED: [Spot; 4] = [Chart, MiddleFix, MiddleLeg, End];

const BODIES: [Spot; 3] = [Chart, MiddleFix, MiddleLeg];

const FIXES: [Spot; 3] = [FirstFix, MiddleFix, LastFix];

// Those whose name a fix before may have.
const LATER_FIXES: [Spot; 3] = [SecondFix, MiddleFix, LastFix];

const LEGS: [Spot; 3] = [FirstLeg, MiddleLeg, LastLeg];

// A smallest file byte by byte, the same without its last byte, and with one name twice. Its records stand at 0, 5, 10 and 15, as
// those of the least shape do.
const WHOLE: Damage = Written(b"CH\x02\x00\x00FX\x02AAFX\x02BBEN");

const SHORT: Damage = Written(b"CH\x02\x00\x00FX\x02AAFX\x02BBE");

const TWICE: Damage = Written(b"CH\x02\x00\x00FX\x02AAFX\x02AAEN");

static GROUPS: [Group; 54] = [
    Group(Accepted, &ALL, &[Chart], Nothing),
    Group(Accepted, &ALL, &[Chart], ExactRoom),
    Group(Accepted, &[SMALLEST], &[Chart], WHOLE),
    Group(Accepted, &BOTH, &FIXES, At(NAME_AT, b"Z9")),
    Group(Accepted, &BOTH, &FIXES, At(NAME_AT, b"0A")),
    Group(CutShort, &ALL, &MARKED, Cut(0)),
    Group(CutShort, &ALL, &MARKED, Cut(1)),
    Group(CutShort, &BOTH, &BODIES, Cut(BODY_AT)),
    Group(CutShort, &BOTH, &BODIES, Cut(4)),
    Group(CutShort, &BOTH, &LEGS, Cut(LEG_RECORD - 1)),
    // Too few bytes follow: in the small file 121 are after the first length.
    Group(CutShort, &[SMALL], &FIXES, At(BODY_AT, &[255])),
    Group(CutShort, &[SMALL], &[FirstFix], At(BODY_AT, &[122])),
    Group(CutShort, &[SMALLEST], &[End], SHORT),
    Group(UnknownMark, &ALL, &MARKED, At(0, b"XX")),
    Group(UnknownMark, &ALL, &MARKED, At(0, b"CX")),
    Group(UnknownMark, &ALL, &MARKED, At(0, b"fx")),
    Group(
        OutOfPlace,
        &BOTH,
        &[MiddleFix, MiddleLeg, End],
        At(0, b"CH"),
    ),
    Group(OutOfPlace, &BOTH, &[Chart, MiddleLeg, End], At(0, b"FX")),
    Group(OutOfPlace, &BOTH, &[Chart, MiddleFix, End], At(0, b"LG")),
    Group(OutOfPlace, &BOTH, &BODIES, At(0, b"EN")),
    Group(OutOfPlace, &[SMALL], &[LastFix], Counts(7, 5)),
    Group(OutOfPlace, &[SMALL], &[FirstLeg], Counts(9, 5)),
    Group(OutOfPlace, &[SMALL], &[LastLeg], Counts(8, 4)),
    Group(OutOfPlace, &[SMALL], &[End], Counts(8, 6)),
    Group(BadCounts, &BOTH, &[Chart], Counts(0, 5)),
    Group(BadCounts, &BOTH, &[Chart], Counts(1, 5)),
    Group(BadCounts, &BOTH, &[Chart], Counts(201, 5)),
    Group(BadCounts, &BOTH, &[Chart], Counts(2, 1001)),
    Group(BadName, &BOTH, &FIXES, At(BODY_AT, &[1])),
    Group(BadName, &BOTH, &FIXES, At(BODY_AT, &[6])),
    Group(BadName, &[SMALL], &[FirstFix], At(BODY_AT, &[121])),
    Group(BadName, &BOTH, &FIXES, At(NAME_AT, b"a")),
    Group(BadName, &BOTH, &FIXES, At(NAME_AT, b"/")),
    Group(BadName, &BOTH, &FIXES, LastNameByte(b':')),
    Group(BadName, &BOTH, &FIXES, LastNameByte(b'@')),
    Group(BadName, &BOTH, &FIXES, LastNameByte(b'[')),
    // The name of the fix before, and that of one of the first eight.
    Group(NameUsed, &[SMALLEST], &[LastFix], At(NAME_AT + 1, b"0")),
    Group(NameUsed, &BOTH, &LATER_FIXES, At(NAME_AT + 1, b"0")),
    Group(NameUsed, &BOTH, &LATER_FIXES, At(NAME_AT, b"A0")),
    Group(NameUsed, &[SMALLEST], &[LastFix], TWICE),
    Group(BadFixes, &BOTH, &LEGS, At(BODY_AT, &[200])),
    Group(BadFixes, &BOTH, &LEGS, At(BODY_AT + 1, &[200])),
    Group(BadFixes, &[SMALL], &LEGS, At(BODY_AT, &[8])),
    Group(BadFixes, &[SMALL], &LEGS, At(BODY_AT + 1, &[8])),
    Group(BadFixes, &BOTH, &LEGS, At(BODY_AT, &[1, 1])),
    Group(BadTimes, &BOTH, &LEGS, Times(1, 0)),
    Group(BadTimes, &BOTH, &LEGS, Times(100_000, 99_999)),
    Group(BadTimes, &BOTH, &LEGS, Times(0, 100_001)),
    Group(BadTimes, &BOTH, &LEGS, Top(601)),
    // The fixes are bad too.
    Group(BadTimes, &BOTH, &LEGS, At(BODY_AT, &[255; 12])),
    Group(BytesAfter, &ALL, &[End], After(b"\x00")),
    Group(BytesAfter, &ALL, &[End], After(b"EN")),
    Group(NoRoom, &BOTH, &[Chart], OneShort),
    Group(NoRoom, &BOTH, &[FirstFix, MiddleLeg, End], OneShortAndCut),
];

// The cases of a group.
fn cases_of(group: &Group, alloc: Global) -> Result<Vec<Case>, AllocError> {
    let Group(verdict, shapes, spots, damage) = *group;
    let mut cases = Vec::new(alloc);
    for shape in shapes {
        for spot in spots {
            cases.push(Case {
                verdict,
                shape: *shape,
                spot: *spot,
                damage,
            })?;
        }
    }
    Ok(cases)
}

/// Runs the cases of a verdict, names those that are not as expected, and answers how many there are.
pub fn show(rt: &HostRuntime, verdict: Verdict) -> anyhow::Result<usize> {
    let alloc = rt.alloc();
    let mut count = 0usize;
    let mut agree = 0usize;
    for group in GROUPS.iter().filter(|group| group.0 == verdict) {
        let cases = cases_of(group, alloc)?;
        count = count.saturating_add(cases.len());
        for case in &cases {
            if is_as_expected(alloc, case)? {
                agree = agree.saturating_add(1);
            } else {
                println!(rt; "not as expected: {case:?}")?;
            }
        }
    }
    println!(rt; "{verdict}: {agree} of {count} cases as expected")?;
    Ok(count)
}
