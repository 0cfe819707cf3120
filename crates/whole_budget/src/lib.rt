// The circuit of some dimensions, generated and then applied to the fresh run through a whole budget, whatever its closing wire says
// (document 02, "The count kept secret too"). Refusals: 1, 2, 4, 3, 7, 23, 10.
#![tactic(auto)]

ghost use Rattle.std.specs.Prelude.{◌≡◌, ◌∷◌, ◌+◌, ◌≤◌, length, drop, replicate, Ok};
ghost use Rattle.refusals.specs.Checks.{outcome};
ghost use Rattle.refusals.specs.Numbers.{said};
ghost use Rattle.dimensions.specs.Sizes.{input_wires};
ghost use Rattle.tables.specs.Tables.{lent_words, words_in};
ghost use Rattle.tables.specs.Acceptance.{table_checks};
ghost use Rattle.state.specs.State.{fresh, run_of};
ghost use Rattle.solver.specs.Entries.{answer_numbers, solved_code, solved_numbers};
ghost use Rattle.netlist.specs.Netlist.{gates_on};
ghost use Rattle.repeats.specs.Repeats.{circuit_words};
ghost use Rattle.whole_budget.specs.Applications.{whole_runs, last_of, enough, whole_answer};
ghost use Rattle.whole_budget.specs.WholeBudget.{whole_checks, cleared, solved_whole};
ghost use Rattle.whole_budget.specs.WholeBudget.{gates_after_whole, bytes_after_whole, wires_after_whole};

use dimensions::Dimensions;
use refusals::Refusal;
use solver::Answer;
use state::Run;
use tables::Tables;

// The greatest budget that is gone through whole.
pub const MOST_BUDGET: u64 = 65535;

// Whether tables, budget, gate words, bytes and wires allow the run: 1, 2, 4, 3, 7, 23 or 10 if not.
fn check_whole(
    d: Dimensions,
    tables: Tables<'_>,
    budget: u64,
    gates: usize,
    bytes: usize,
    wires: usize,
) -> Result<(), Refusal>
    ensures { result ≡ outcome (whole_checks d (lent_words tables) budget gates bytes wires) }
{
    repeats::check_words(d, tables, gates)?;
    if MOST_BUDGET < budget {
        return Err(Refusal::WholeBudget);
    }
    repeats::check_room(d, bytes, wires)
}

// The run after as many applications of the circuit to the fresh run as the budget says. No standing ends the loop. Bytes past the inputs
// and wires past the circuit's stay as they are.
fn apply_through(
    d: Dimensions,
    tables: Tables<'_>,
    budget: u64,
    gates: &[u32],
    bytes: &mut [u8],
    wires: &mut [u8],
) -> Result<Run, Refusal>
    requires gates_value { gates.now ≡ circuit_words d }
    requires public_value { outcome (table_checks d (words_in tables)) ≡ Ok tt }
    requires d_in_bounds { (input_wires d ≤ length bytes.old) × (input_wires d + length (gates_on d) ≤ length wires.old) }
    ensures value { result ≡ Ok (last_of (run_of d.n fresh)
        (whole_runs d (lent_words tables) budget (replicate budget (enough d)))) }
    ensures bytes_unchanged { drop (input_wires d) bytes.new ≡ drop (input_wires d) bytes.old }
    ensures wires_unchanged { drop (input_wires d + length (gates_on d)) wires.new ≡ drop (input_wires d + length (gates_on d)) wires.old }
{
    let mut last = Run::fresh(d.n);
    for _ in 0..budget {
        repeats::apply(d, tables, gates, bytes, wires, &mut last)?;
    }
    Ok(last)
}

// Puts zeros over the first `count` bytes.
fn clear(bytes: &mut [u8], count: usize)
    requires { count ≤ length bytes.old }
    ensures { bytes.new ≡ cleared count bytes.old }
{
    bytes[..count].fill(0);
}

// Generates the circuit of these dimensions into the gate words, then applies it to the fresh run as many times as the budget says, closed
// or not: the answer has the budget for its count, and the verdict and the model of the last run. Bytes and wires are zeros then where they
// were used. Refused, all is as it was.
pub fn solve_whole(
    d: Dimensions,
    tables: Tables<'_>,
    budget: u64,
    gates: &mut [u32],
    bytes: &mut [u8],
    wires: &mut [u8],
) -> Result<Answer, Refusal>
    ensures value { result ≡ solved_whole d (lent_words tables) budget gates.old bytes.old wires.old }
    ensures gates_after { gates.new ≡ gates_after_whole d (lent_words tables) budget gates.old bytes.old
        wires.old }
    ensures bytes_after { bytes.new ≡ bytes_after_whole d (lent_words tables) budget gates.old bytes.old
        wires.old }
    ensures wires_after { wires.new ≡ wires_after_whole d (lent_words tables) budget gates.old bytes.old
        wires.old }
    ensures result_value { solved_code result ∷ solved_numbers result
        ≡ said (outcome (whole_checks d (lent_words tables) budget (length gates.old)
        (length bytes.old) (length wires.old))) (answer_numbers (whole_answer d (lent_words tables) budget)) }
{
    let lent = gates.len();
    check_whole(d, tables, budget, lent, bytes.len(), wires.len())?;
    let words = repeats::write_circuit(d, gates);
    let circuit = &gates[..words];
    let last = apply_through(d, tables, budget, circuit, bytes, wires)?;
    let inputs = d.input_wires();
    clear(bytes, inputs);
    clear(wires, inputs + words / 3);
    Ok(Answer {
        count: budget,
        verdict: verdicts::verdict_of(last),
    })
}
