// A text, line by line, into tables that are cleared.
ghost use Rattle.std.specs.Prelude.{◌≡◌, true, ◌≤◌, length};
ghost use Rattle.dqbf.specs.Limits.{text_limit};
ghost use Rattle.dqbf.specs.Text.{line_feed, pieces};
ghost use Rattle.dqbf.specs.Reading.{Reader, start, at_end, read_from};
ghost use Rattle.tables.specs.Tables.{Tables};
ghost use Rattle.tables.specs.Lent.{tables_held, SameLoans};
ghost use Rattle.tables.specs.Spread.{spread, blank};
ghost use Rattle.tables.specs.WellFormed.{long};
ghost use Rattle.prefix_lines.specs.Lines.{carried, ReadSoFar, SameRoom};
ghost use Rattle.texts.specs.Texts.{TextRead};

use super::lines;
use dqbf::refusal::Refusal;
use prefix_lines::progress::{Phase, Progress};
use tables::{LentMut, State};
use tokens::text;

// The line that a text is refused for (0: the whole text), and its refusal.
#[derive(Clone, Copy, PartialEq, Eq)]
pub struct LoadRefusal {
    pub line: u32,
    pub refusal: Refusal,
}

// The end of a text of so many lines: a missing header is told one line behind the last, too few clauses at the last line.
fn end_of_text(progress: Progress, state: State, line: u32) -> Result<(), LoadRefusal>
    requires { line ≤ text_limit }
    ensures { (t : Tables) (reader : Reader) (held : Tables) → ReadSoFar t reader (carried progress state) held
        → TextRead t (at_end reader.phase reader line) result state held }
{
    if progress.phase == Phase::Opening {
        return Err(LoadRefusal {
            line: line + 1,
            refusal: Refusal::NoForm,
        });
    }
    if state.clauses.0 != progress.count {
        return Err(LoadRefusal {
            line,
            refusal: Refusal::ClauseCount,
        });
    }
    Ok(())
}

// The lines from the top.
pub fn read_lines(text: &[u8], tables: &mut LentMut) -> Result<(), LoadRefusal>
    requires { (length text.now ≤ text_limit) × (long (tables_held tables.old) ≡ true)
        × (tables_held tables.old ≡ spread blank (tables_held tables.old)) }
    ensures loans { SameLoans tables.old tables.new }
    ensures room { SameRoom (tables_held tables.old) (tables_held tables.new) }
    ensures read { TextRead (tables_held tables.old)
        (read_from (pieces line_feed text.now) 0 start) result tables.new.state (tables_held tables.new) }
{
    let mut numbers = [0u32; 16384];
    let mut known = [0u32; 257];
    let mut progress = Progress {
        phase: Phase::Opening,
        count: 0,
    };
    tables.state = State::default();
    let mut line: u32 = 0;
    let mut at = 0;
    // no range: the next line begins where this one ends
    while at < text.len() {
        let end = at + text::line_length(&text[at..]);
        line += 1;
        if end == text.len() {
            return Err(LoadRefusal {
                line,
                refusal: Refusal::NoForm,
            });
        }
        let bytes = &text[at..end];
        if let Err(refusal) = lines::read_line(
            bytes,
            &mut numbers,
            &mut known,
            &mut progress,
            tables,
        ) {
            return Err(LoadRefusal { line, refusal });
        }
        at = end + 1;
    }
    end_of_text(progress, tables.state, line)
}
