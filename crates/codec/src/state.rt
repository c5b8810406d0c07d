// The state in sixteen bytes.
ghost use Rattle.std.specs.Prelude.{◌≡◌, ◌%◌, ◌≤◌, length};
ghost use Rattle.codec.specs.Bytes.{over};
ghost use Rattle.codec.specs.State.{state_in, state_bytes};

use super::table;
use tables::{ClauseNumber, State, StepNumber, VariableNumber};

// The state that stands at the front of some bytes.
pub fn read_state(bytes: &[u8]) -> State
    requires { 16 ≤ length bytes.now }
    ensures { result ≡ state_in bytes.now }
{
    let mut counts = [0u16; 8];
    table::read_table(&mut counts, bytes);
    let [
        bound,
        variables,
        universals,
        formula,
        clauses,
        literals,
        steps,
        empty,
    ] = counts;
    State {
        bound: VariableNumber(bound.into()),
        variables: VariableNumber(variables.into()),
        universals,
        formula: ClauseNumber(formula.into()),
        clauses: ClauseNumber(clauses.into()),
        literals,
        steps: StepNumber(steps.into()),
        empty: ClauseNumber(empty.into()),
    }
}

// The low 16 bits of a count.
fn low(count: u32) -> u16
    ensures { result ≡ count % 65536 }
{
    (count % 65536) as u16
}

// The bytes of a state, at the front of a buffer.
pub fn write_state(bytes: &mut [u8], state: State)
    requires { 16 ≤ length bytes.old }
    ensures { bytes.new ≡ over (state_bytes state) bytes.old }
{
    let counts = [
        low(state.bound.0),
        low(state.variables.0),
        state.universals,
        low(state.formula.0),
        low(state.clauses.0),
        state.literals,
        low(state.steps.0),
        low(state.empty.0),
    ];
    table::write_table(bytes, &counts);
}
