// The circuit of some dimensions, generated and then repeated on a run (document 01, "Circuit"). Refusals: 1, 2, 4, 3, 7, 10, 12, 13.
#![tactic(auto)]

ghost use Rattle.std.specs.Prelude.{◌≡◌, [], ◌∷◌, ◌+◌, ◌≤◌, length, take, Ok};
ghost use Rattle.refusals.specs.Checks.{outcome};
ghost use Rattle.refusals.specs.Numbers.{code_of, said};
ghost use Rattle.dimensions.specs.Sizes.{state_wire_count, input_wires};
ghost use Rattle.tables.specs.Tables.{lent_words, words_in};
ghost use Rattle.tables.specs.Acceptance.{table_checks};
ghost use Rattle.state.specs.WellFormed.{state_checks};
ghost use Rattle.wires.specs.Packing.{packed};
ghost use Rattle.netlist.specs.Netlist.{gates_on};
ghost use Rattle.generator.specs.Generation.{written_words};
ghost use Rattle.repeats.specs.Application.{next_run, applied, mark_result, mark_code};
ghost use Rattle.repeats.specs.Application as Application;
ghost use Rattle.repeats.specs.Repeats.{circuit_words, circuit_in};
ghost use Rattle.repeats.specs.Repeating as Repeating;
ghost use Rattle.repeats.specs.Repeating.{generation_checks, wire_checks, repeat_checks};
ghost use Rattle.repeats.specs.Repeating.{made, bytes_left_by, wires_left, repeated_by, repeated, gates_after, bytes_after};
ghost use Rattle.repeats.specs.Repeating.{ending_result, ending_code};

use dimensions::Dimensions;
use refusals::Refusal;
use sections::Addresses;
use state::Run;
use tables::Tables;

// How the repeats ended: how many there were, and the last mark, whether the run is closed then.
#[derive(Clone, Copy)]
pub struct Ending {
    pub repeats: u64,
    pub mark: bool,
}

// Whether the tables are accepted and so many gate words have room for the circuit: 1, 2, 4, 3 or 7 if not.
pub fn check_words(d: Dimensions, tables: Tables<'_>, gates: usize) -> Result<(), Refusal>
    ensures value { result ≡ outcome (generation_checks d (lent_words tables) gates) }
    ensures result_value { code_of result ∷ [] ≡ said (outcome (generation_checks d (lent_words tables) gates)) [] }
{
    tables::accept(d, tables)?;
    if gates < 3 * d.ceiling() {
        return Err(Refusal::GateBuffer);
    }
    Ok(())
}

// Whether the bytes have room for the inputs, and the wires for all of the circuit's: 10 if not.
pub fn check_room(d: Dimensions, bytes: usize, wires: usize) -> Result<(), Refusal>
    ensures value { result ≡ outcome (wire_checks d bytes wires) }
    ensures result_value { code_of result ∷ [] ≡ said (outcome (wire_checks d bytes wires)) [] }
{
    let a = Addresses::of(d);
    if (bytes < d.input_wires()) | (wires < a.wires as usize) {
        return Err(Refusal::Wires);
    }
    Ok(())
}

// Whether tables, so many gate words, bytes and wires, and the run allow repeats: 1, 2, 4, 3, 7, 10, 12 or 13 if not.
fn check_repeat(
    d: Dimensions,
    tables: Tables<'_>,
    gates: usize,
    bytes: usize,
    wires: usize,
    run: Run,
) -> Result<(), Refusal>
    ensures { result ≡ outcome (repeat_checks d (lent_words tables) gates bytes wires run) }
{
    check_words(d, tables, gates)?;
    check_room(d, bytes, wires)?;
    state::check_state(d, run)
}

// Generates the circuit of these dimensions into the front of the gate words; how many words it has. Where the generator refuses, 0, and no
// word is changed.
pub fn write_circuit(d: Dimensions, gates: &mut [u32]) -> usize
    ensures value { result ≡ length (circuit_in d gates.old) }
    ensures upper_bound { result ≤ length gates.new }
    ensures gates_after { take result gates.new ≡ circuit_in d gates.old }
    ensures gates_after_2 { gates.new ≡ written_words d gates.old }
{
    match generator::generate(d, gates) {
        Ok(count) => 3 * count,
        Err(_) => 0,
    }
}

// Puts the next run, of a circuit's output wires, in the place of the run, and gives its mark: a state's wires come first, then the
// closing one. Refused, the run is as it was.
fn next_run(n: u8, run: &mut Run, outputs: &[u8]) -> Result<bool, Refusal>
    requires { length outputs.now ≡ state_wire_count n + 1 }
    ensures value { result ≡ mark_result (next_run n run.old (state_wire_count n + 1) outputs.now) }
    ensures run_after { run.new ≡ (next_run n run.old (state_wire_count n + 1) outputs.now).run }
{
    let read = readback::read_back(n, outputs);
    read.outcome?;
    *run = read.run;
    Ok(outputs[Dimensions::state_wires_of(n)] == 1)
}

// Demand 3's attempt: rows and run are packed, the gates evaluated, and all of their outputs read back as the next run. The mark is whether
// that is closed. Refused by any of these, the run is as it was, and what was packed or evaluated before stays in the bytes and wires.
pub fn apply(
    d: Dimensions,
    tables: Tables<'_>,
    gates: &[u32],
    bytes: &mut [u8],
    wires: &mut [u8],
    run: &mut Run,
) -> Result<bool, Refusal>
    ensures value { result ≡ mark_result (applied d (lent_words tables) gates.now run.old bytes.old wires.old
        (state_wire_count d.n + 1)) }
    ensures run_after { run.new ≡ (applied d (lent_words tables) gates.now run.old bytes.old wires.old
        (state_wire_count d.n + 1)).run }
    ensures bytes_after { bytes.new ≡ packed d (lent_words tables) run.old bytes.old }
    ensures wires_after { wires.new ≡ Application.wires_after d (lent_words tables) gates.now run.old bytes.old
        wires.old }
    ensures result_value { mark_code result ∷ [] ≡ said (applied d (lent_words tables) gates.now run.old bytes.old
        wires.old (state_wire_count d.n + 1)).outcome [] }
{
    wires::pack(d, tables, *run, bytes)?;
    let inputs = d.input_wires();
    evaluator::evaluate(gates, &bytes[..inputs], wires)?;
    let end = inputs + gates.len() / 3;
    let start = end - (d.state_wires() + 1);
    next_run(d.n, run, &wires[start..end])
}

// Repeats the circuit on the run until it is closed, at most a given number of times.
fn repeat_circuit(
    d: Dimensions,
    tables: Tables<'_>,
    times: u64,
    gates: &[u32],
    bytes: &mut [u8],
    wires: &mut [u8],
    run: &mut Run,
) -> Result<Ending, Refusal>
    requires gates_value { gates.now ≡ circuit_words d }
    requires public_value { outcome (table_checks d (words_in tables)) ≡ Ok tt }
    requires d_in_bounds { (input_wires d ≤ length bytes.old) × (input_wires d + length (gates_on d) ≤ length wires.old) }
    requires run_value { outcome (state_checks d run.old) ≡ Ok tt }
    ensures value { result ≡ ending_result (repeated_by run.old (made d (lent_words tables) times bytes.old wires.old run.old)) }
    ensures run_after { run.new ≡ (repeated_by run.old (made d (lent_words tables) times bytes.old wires.old run.old)).run }
    ensures bytes_after { bytes.new ≡ bytes_left_by d (lent_words tables) bytes.old run.old
        (made d (lent_words tables) times bytes.old wires.old run.old) }
    ensures wires_after { wires.new ≡ wires_left d (lent_words tables) bytes.old wires.old run.old
        (made d (lent_words tables) times bytes.old wires.old run.old) }
{
    let mut repeats = 0;
    // A loop: the run says when it ends.
    while verdicts::goes_on(*run, repeats, times) {
        apply(d, tables, gates, bytes, wires, run)?;
        repeats += 1;
    }
    Ok(Ending {
        repeats,
        mark: verdicts::closed(*run),
    })
}

// Generates the circuit of these dimensions into the gate words, then repeats it on the run until that is closed, at most a given number of
// times. The bytes then hold the last repeat's inputs, the wires its wires. Refused, all is as it was.
pub fn repeat(
    d: Dimensions,
    tables: Tables<'_>,
    times: u64,
    gates: &mut [u32],
    bytes: &mut [u8],
    wires: &mut [u8],
    run: &mut Run,
) -> Result<Ending, Refusal>
    ensures value { result ≡ ending_result (repeated d (lent_words tables) times gates.old bytes.old wires.old run.old) }
    ensures run_after { run.new ≡ (repeated d (lent_words tables) times gates.old bytes.old wires.old run.old).run }
    ensures gates_after { gates.new ≡ gates_after d (lent_words tables) times gates.old bytes.old
        wires.old run.old }
    ensures bytes_after { bytes.new ≡ bytes_after d (lent_words tables) times gates.old bytes.old
        wires.old run.old }
    ensures wires_after { wires.new ≡ Repeating.wires_after d (lent_words tables) times gates.old bytes.old
        wires.old run.old }
    ensures result_value { ending_code result ∷ [] ≡ said (outcome (repeat_checks d (lent_words tables) (length gates.old)
        (length bytes.old) (length wires.old) run.old)) [] }
{
    let lent = gates.len();
    check_repeat(d, tables, lent, bytes.len(), wires.len(), *run)?;
    let words = write_circuit(d, gates);
    let circuit = &gates[..words];
    repeat_circuit(d, tables, times, circuit, bytes, wires, run)
}
