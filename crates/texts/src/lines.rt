// Lines from the top: each is read by its form.
ghost use Rattle.std.specs.Prelude.{◌≡◌, ◌*◌, ◌≤◌, ◌<◌, OnErr, length};
ghost use Rattle.std.proofs.Math.Option.{none};
ghost use Rattle.dqbf.specs.Limits.{clause_limit, literal_limit, variable_limit, universal_limit};
ghost use Rattle.dqbf.specs.Reading.{Reader, comment, header, form_of, taken};
ghost use Rattle.dqbf.specs.Refusal.{refusal_in};
ghost use Rattle.sets.specs.Words.{words_each, as_sets};
ghost use Rattle.tables.specs.Tables.{Tables};
ghost use Rattle.tables.specs.Lent.{tables_held, SameLoans};
ghost use Rattle.tables.specs.declared.State as Kept;
ghost use Rattle.prefix_lines.specs.Lines.{carried, ReadSoFar, Known, SameRoom, LineRead, Within};
ghost use Rattle.texts.specs.Texts.{empty_state};

use clause_lines::clause;
use dqbf::limits::{CLAUSE_LIMIT, VARIABLE_LIMIT};
use dqbf::refusal::Refusal;
use forms::form;
use forms::form::Shape;
use prefix_lines::declarations;
use prefix_lines::progress::{Phase, Progress};
use tables::{LentMut, State, VariableNumber};

// The state of V variables in use, and of nothing else.
pub fn empty_state(bound: u32) -> State
    ensures { result ≡ empty_state bound }
{
    State {
        bound: VariableNumber(bound),
        variables: VariableNumber(bound),
        ..State::default()
    }
}

fn comment_line(progress: Progress) -> Result<(), Refusal>
    ensures { (t : Tables) (reader : Reader) (state : Kept.State) (held : Tables) → ReadSoFar t reader (carried progress state) held
        → LineRead t reader comment (refusal_in result) (carried progress state) held }
{
    if progress.phase != Phase::Opening {
        return Err(Refusal::NoForm);
    }
    Ok(())
}

fn header_line(
    bound: u32,
    count: u32,
    progress: &mut Progress,
    tables: &mut LentMut,
) -> Result<(), Refusal>
    ensures loans { SameLoans tables.old tables.new }
    ensures refused { OnErr result ((progress.new ≡ progress.old) × (tables.new.state ≡ tables.old.state)) }
    ensures rest { tables_held tables.new ≡ tables_held tables.old }
    ensures read { (t : Tables) (reader : Reader) → ReadSoFar t reader (carried progress.old tables.old.state) (tables_held tables.old)
        → LineRead t reader (header bound count) (refusal_in result) (carried progress.new tables.new.state) (tables_held tables.new) }
{
    if progress.phase != Phase::Opening {
        return Err(Refusal::NoForm);
    }
    if bound as usize > VARIABLE_LIMIT {
        return Err(Refusal::OverLimit);
    }
    if count as usize > CLAUSE_LIMIT {
        return Err(Refusal::OverLimit);
    }
    *progress = Progress {
        phase: Phase::PrefixLines,
        count,
    };
    tables.state = empty_state(bound);
    Ok(())
}

// One line without its line feed. `numbers` is room for the numbers on it.
pub fn read_line(
    line: &[u8],
    numbers: &mut [u32],
    known: &mut [u32],
    progress: &mut Progress,
    tables: &mut LentMut,
) -> Result<(), Refusal>
    requires { (length line.now ≤ 2 * length numbers.old) × Within (carried progress.old tables.old.state) × (universal_limit < length known.old)
        × (literal_limit ≤ length tables.old.literals.now) × (clause_limit ≤ length tables.old.ends.now)
        × (variable_limit ≤ length (as_sets words_each tables.old.sets.now)) × (variable_limit ≤ length tables.old.kinds.now) }
    ensures loans { SameLoans tables.old tables.new }
    ensures refused { OnErr result ((progress.new ≡ progress.old) × (tables.new.state ≡ tables.old.state)) }
    ensures room { SameRoom (tables_held tables.old) (tables_held tables.new) }
    ensures read { (t : Tables) (reader : Reader)
        → ReadSoFar t reader (carried progress.old tables.old.state) (tables_held tables.old) → Known reader known.old
        → LineRead t reader (form_of line.now) (refusal_in result) (carried progress.new tables.new.state) (tables_held tables.new)
        × (refusal_in result ≡ none → Known (taken reader (form_of line.now)) known.new) }
{
    let Some(shape) = form::form(line, numbers) else {
        return Err(Refusal::NoForm);
    };
    match shape {
        Shape::Comment => comment_line(*progress),
        Shape::Header(bound, count) => header_line(bound, count, progress, tables),
        Shape::Universals(n) => {
            declarations::universal_line(&numbers[..n], known, *progress, tables)
        }
        Shape::Existentials(n) => declarations::existential_line(&numbers[..n], *progress, tables),
        Shape::Dependent(n) => declarations::dependent_line(&numbers[..n], *progress, tables),
        Shape::Clause(n) => clause::clause_line(&numbers[..n], progress, tables),
    }
}
