// The cases: a label, and what is changed.
use super::build::{self, Sample};
use super::fill;
use std::io;
use tables::{ClauseNumber, Lent, State, StepNumber, VariableNumber, kind};

// A table is lent too short.
pub fn lengths(rt: &impl Print) -> io::Result<()> {
    let literals = [0; 8192];
    let ends = [0; 2048];
    let sets = [0; 2048];
    let kinds = [0; 512];
    let stated = Lent {
        literals: &literals,
        ends: &ends,
        sets: &sets,
        kinds: &kinds,
        state: State::default(),
    };
    build::judged(rt, "lengths as stated", &stated)?;
    let literals = &literals[..8191];
    build::judged(rt, "8191 literals", &Lent { literals, ..stated })?;
    let ends = &ends[..2047];
    build::judged(rt, "2047 ends", &Lent { ends, ..stated })?;
    let sets = &sets[..2047];
    build::judged(rt, "2047 words of sets", &Lent { sets, ..stated })?;
    let kinds = &kinds[..511];
    build::judged(rt, "511 kinds", &Lent { kinds, ..stated })?;
    build::with_state(rt, "the sample, in longer tables", build::sample_state())
}

// V and the variables in use.
fn variable_counts(rt: &impl Print) -> io::Result<()> {
    build::with_zeros(rt, "zero tables and state", State::default())?;
    build::with_zeros(
        rt,
        "V 1 with 0 in use",
        State {
            bound: VariableNumber(1),
            ..State::default()
        },
    )?;
    build::with_zeros(
        rt,
        "V 512, undeclared",
        State {
            bound: VariableNumber(512),
            variables: VariableNumber(512),
            ..State::default()
        },
    )?;
    build::with_zeros(
        rt,
        "V 513, undeclared",
        State {
            bound: VariableNumber(513),
            variables: VariableNumber(513),
            ..State::default()
        },
    )
}

// Formula clauses, clauses and accepted steps.
fn clause_counts(rt: &impl Print) -> io::Result<()> {
    build::with_zeros(
        rt,
        "2048 empty clauses",
        State {
            formula: ClauseNumber(2048),
            clauses: ClauseNumber(2048),
            empty: ClauseNumber(1),
            ..State::default()
        },
    )?;
    build::with_zeros(
        rt,
        "2049 empty clauses",
        State {
            formula: ClauseNumber(2049),
            clauses: ClauseNumber(2049),
            empty: ClauseNumber(1),
            ..State::default()
        },
    )?;
    build::with_zeros(
        rt,
        "2048 steps that added an empty clause",
        State {
            clauses: ClauseNumber(2048),
            steps: StepNumber(2048),
            empty: ClauseNumber(1),
            ..State::default()
        },
    )
}

// Counts of zero tables.
pub fn counts(rt: &impl Print) -> io::Result<()> {
    variable_counts(rt)?;
    clause_counts(rt)?;
    build::with_zeros(
        rt,
        "4294967295 steps and 1 formula clause",
        State {
            formula: ClauseNumber(1),
            steps: StepNumber(4294967295),
            ..State::default()
        },
    )
}

// The counts of the sample.
pub fn sums(rt: &impl Print) -> io::Result<()> {
    build::with_state(
        rt,
        "one universal too many stated",
        State {
            universals: 3,
            ..build::sample_state()
        },
    )?;
    build::with_state(
        rt,
        "one step too many",
        State {
            steps: StepNumber(4),
            ..build::sample_state()
        },
    )?;
    build::with_state(
        rt,
        "65535 steps",
        State {
            steps: StepNumber(65535),
            ..build::sample_state()
        },
    )?;
    build::with_state(
        rt,
        "one formula clause for a step",
        State {
            formula: ClauseNumber(3),
            steps: StepNumber(2),
            ..build::sample_state()
        },
    )
}

// The ends and the clauses between them.
pub fn clauses(rt: &impl Print) -> io::Result<()> {
    build::with_end(rt, "ends that fall and rise again", 4, 6)?;
    build::with_state(
        rt,
        "last end below the literal count",
        State {
            literals: 9,
            ..build::sample_state()
        },
    )?;
    build::with_literals(rt, "clause {-6, 4}", 4, -6, 4)?;
    build::with_literals(rt, "clause {4, -4}", 4, 4, -4)?;
    build::with_literals(rt, "clause {4, 4}", 4, 4, 4)?;
    build::with_literals(rt, "clause {0}", 6, 0, 6)?;
    build::with_literals(rt, "clause {5}, undeclared", 6, 5, 6)?;
    build::with_literals(rt, "clause {-7}, not in use", 6, -7, 6)?;
    build::with_literals(rt, "clause {-32768}", 6, -32768, 6)?;
    build::with_literals(rt, "formula clause {2, 5}", 2, 2, 5)?;
    build::with_literals(rt, "formula clause {2, 6}, a fork variable", 2, 2, 6)?;
    build::with_state(
        rt,
        "no empty clause stated",
        State {
            empty: ClauseNumber(0),
            ..build::sample_state()
        },
    )?;
    build::with_state(
        rt,
        "a later empty clause stated",
        State {
            empty: ClauseNumber(6),
            ..build::sample_state()
        },
    )
}

// A set is given by the place of its word.
fn sets(rt: &impl Print) -> io::Result<()> {
    build::with_sets(rt, "universals' bits the other way round", 0, 2, 4, 1)?;
    build::with_sets(rt, "universals with one bit", 0, 1, 4, 1)?;
    build::with_sets(rt, "a universal with two bits", 0, 3, 4, 2)?;
    build::with_sets(rt, "a universal with no bit", 0, 0, 4, 2)?;
    build::with_sets(rt, "universals' bits 0 and 2", 0, 1, 4, 4)?;
    build::with_sets(rt, "universals' bits 0 and 64", 4, 0, 5, 1)?;
    build::with_sets(rt, "a universal with bits 0 and 64", 1, 1, 12, 2)?;
    build::with_sets(rt, "a universal with bits 0 and 192", 3, 1, 12, 2)?;
    build::with_sets(rt, "an existential set {1, 2}", 8, 3, 12, 2)?;
    build::with_sets(rt, "an existential set with bit 2", 8, 4, 12, 2)?;
    build::with_sets(rt, "a fork set with bit 1", 20, 2, 12, 2)?;
    build::with_sets(rt, "a fork set with bit 63", 20, 9223372036854775808, 12, 2)?;
    build::with_sets(rt, "a fork set with bit 64", 21, 1, 12, 2)?;
    build::with_sets(
        rt,
        "a fork set with bit 255",
        23,
        9223372036854775808,
        12,
        2,
    )?;
    build::with_sets(rt, "an undeclared variable with a set", 16, 1, 12, 2)?;
    build::with_sets(
        rt,
        "an undeclared variable with bit 255",
        19,
        9223372036854775808,
        12,
        2,
    )
}

fn kinds(rt: &impl Print) -> io::Result<()> {
    build::with_kind(rt, "kind 4", 4, 4)?;
    build::with_kind(rt, "kind 255", 4, 255)?;
    build::with_kind(rt, "kind 2 for an undeclared variable", 4, 2)?;
    build::with_kind(rt, "kind 3 up to V", 4, 3)?;
    build::with_kind(rt, "kind 2 above V", 5, 2)
}

// Sets and kinds.
pub fn variables(rt: &impl Print) -> io::Result<()> {
    sets(rt)?;
    kinds(rt)
}

// Entries between the counts and the stated sizes, and past them.
pub fn rest(rt: &impl Print) -> io::Result<()> {
    build::with_literals(rt, "literal behind the last", 8, 1, 0)?;
    build::with_literals(rt, "literal 8192", 8191, -1, 0)?;
    build::with_literals(rt, "literal 8193", 8192, -1, 0)?;
    build::with_end(rt, "end behind the last", 6, 8)?;
    build::with_end(rt, "end 2048", 2047, 1)?;
    build::with_end(rt, "end 2049", 2048, 1)?;
    build::with_sets(rt, "set behind the last", 24, 1, 12, 2)?;
    build::with_sets(rt, "its second word", 25, 1, 12, 2)?;
    build::with_sets(rt, "its third word", 26, 1, 12, 2)?;
    build::with_sets(rt, "its fourth word", 27, 1, 12, 2)?;
    build::with_sets(rt, "word 2048 of the sets", 2047, 1, 12, 2)?;
    build::with_sets(rt, "word 2049 of the sets", 2048, 1, 12, 2)?;
    build::with_kind(rt, "kind behind the last", 6, 2)?;
    build::with_kind(rt, "kind of variable 512", 511, 3)?;
    build::with_kind(rt, "kind 513", 512, 3)
}

// Clauses of at most so many literals, over existentials 1, 2, .. with empty sets.
fn existentials(rt: &impl Print, label: &str, width: u16, total: u16) -> io::Result<()> {
    let mut sample = Sample::zero(State::default());
    fill::literals(&mut sample.literals, width, total);
    let clauses = fill::ends(&mut sample.ends, width, total);
    fill::kinds(&mut sample.kinds, width, kind::EXISTENTIAL);
    sample.state = State {
        bound: VariableNumber(u32::from(width)),
        variables: VariableNumber(u32::from(width)),
        formula: ClauseNumber(clauses),
        clauses: ClauseNumber(clauses),
        literals: total,
        ..State::default()
    };
    build::judged(rt, label, &sample.lent())
}

// So many universals, in order of declaration.
fn universals(rt: &impl Print, label: &str, count: u16) -> io::Result<()> {
    let mut sample = Sample::zero(State {
        bound: VariableNumber(u32::from(count)),
        variables: VariableNumber(u32::from(count)),
        universals: count,
        ..State::default()
    });
    fill::bits(&mut sample.sets, count);
    fill::kinds(&mut sample.kinds, count, kind::UNIVERSAL);
    build::judged(rt, label, &sample.lent())
}

// The borders of width, literal count and universals.
pub fn borders(rt: &impl Print) -> io::Result<()> {
    existentials(rt, "a clause of 32 literals", 32, 32)?;
    existentials(rt, "a clause of 33 literals", 33, 33)?;
    existentials(rt, "8192 literals", 32, 8192)?;
    existentials(rt, "8193 literals", 32, 8193)?;
    universals(rt, "256 universals", 256)?;
    universals(rt, "257 universals", 257)
}
