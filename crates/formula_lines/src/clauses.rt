// Clause lines.
ghost use Rattle.std.specs.Prelude.{map, length};
ghost use Rattle.dqbf.specs.Reading.{clause_line};
ghost use Rattle.dqbf.specs.Spelling.{line_text, text};
ghost use Rattle.tables.specs.Tables.{cut};
ghost use Rattle.words.specs.Laid.{Fits, Wrote};
ghost use Rattle.words.specs.Output.{SameOutput};
ghost use Rattle.formula_lines.specs.Working.{Rises};

use words::Writer;

// The line of a clause.
pub fn write_clause(writer: &mut Writer, clause: &[i16])
    requires { Fits writer.old.at (line_text (clause_line clause.now)) }
    ensures loan { SameOutput writer.old writer.new }
    ensures wrote { Wrote (line_text (clause_line clause.now)) writer.old.at writer.old.out.now writer.new.out.now writer.new.at }
{
    for &literal in clause {
        writer.literal(literal);
    }
    writer.closing();
}

// The lines of the clauses between their ends.
pub fn write_clauses(writer: &mut Writer, literals: &[i16], ends: &[u16])
    requires { Fits writer.old.at (text (map clause_line (cut 0 ends.now literals.now))) × Rises 0 ends.now (length literals.now) }
    ensures loan { SameOutput writer.old writer.new }
    ensures wrote { Wrote (text (map clause_line (cut 0 ends.now literals.now))) writer.old.at writer.old.out.now writer.new.out.now writer.new.at }
{
    let mut start = 0;
    for &end in ends {
        let end = end as usize;
        write_clause(writer, &literals[start..end]);
        start = end;
    }
}
