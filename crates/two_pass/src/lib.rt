// Evaluation in two passes: judges all gates, then runs them in the lent buffer itself.
#![tactic(auto)]

ghost use Rattle.std.specs.Prelude.{◌≡◌, true, [], ◌∷◌, ◌+◌, ◌/◌, ◌≤◌, ◌<◌, length, take};
ghost use Rattle.refusals.specs.Checks.{outcome};
ghost use Rattle.refusals.specs.Numbers.{code_of, said};
ghost use Rattle.words.specs.Booleans.{digit};
ghost use Rattle.gates.specs.Gates.{value, wires_of};
ghost use Rattle.gates.specs.Memory as Memory;
ghost use Rattle.two_pass.specs.Evaluation.{evaluation_checks, filled_wires};
ghost use Rattle.two_pass.specs.Table.{table};

use refusals::Refusal;

// The values of XOR, AND and INV, four each, on wires 00, 01, 10 and 11. They are looked up: jumps on the kind would be mispredicted.
const VALUES: [u8; 12] = [0, 1, 1, 0, 0, 0, 0, 1, 1, 1, 0, 0];

// Fills the front of the wires with the inputs and then each gate's value; later bytes stay as they are. Refused, it changes no byte.
pub fn evaluate(gates: &[u32], inputs: &[u8], wires: &mut [u8]) -> Result<(), Refusal>
    ensures value { result ≡ outcome (evaluation_checks gates.now inputs.now wires.old) }
    ensures wires_after { wires.new ≡ filled_wires gates.now inputs.now wires.old }
    ensures result_value { code_of result ∷ [] ≡ said (outcome (evaluation_checks gates.now inputs.now wires.old)) [] }
{
    let n = inputs.len();
    if !gates::accepted(gates, n) {
        return Err(Refusal::Gates);
    }
    if wires.len() < n + gates.len() / 3 {
        return Err(Refusal::Wires);
    }
    if !gates::bits(inputs) {
        return Err(Refusal::Wires);
    }
    wires[..n].copy_from_slice(inputs);
    run(gates, wires, n);
    Ok(())
}

// The value of a gate of this kind on two wires.
fn gate_value(values: &[u8; 12], kind: u32, a: u8, b: u8) -> u8
    requires values_value { values.now ≡ table }
    requires kind_bound { kind < 3 }
    requires a_bound { (a < 2) × (b < 2) }
    ensures { result ≡ digit (value (Memory.bits_of (a ∷ (b ∷ []))) (Memory.gate_of kind 0 1)) }
{
    let at = 2 * (2 * (kind as usize) + (a as usize)) + (b as usize);
    values[at]
}

// Runs accepted gates after the first n wires.
fn run(gates: &[u32], wires: &mut [u8], n: usize)
    requires gates_value { Memory.accepted n gates.now ≡ true }
    requires gates_in_bounds { n + length gates.now / 3 ≤ length wires.old }
    requires wires_value { Memory.bits (take n wires.old) ≡ true }
    ensures { wires.new ≡ Memory.over
        (Memory.bytes_of (wires_of (Memory.bits_of (take n wires.old))
        (Memory.gates_of gates.now))) wires.old }
{
    let (gates, _) = gates.as_chunks::<3>();
    for (i, &[kind, a, b]) in gates.iter().enumerate() {
        wires[n + i] = gate_value(&VALUES, kind, wires[a as usize], wires[b as usize]);
    }
}
