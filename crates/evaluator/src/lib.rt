// The evaluator of circuits, large ones in one pass (document 01, "Circuit"). Refusals: 9, then 10.
#![tactic(auto)]

mod values;

ghost use Rattle.std.specs.Prelude.{◌≡◌, true, cond, [], ◌∷◌, ◌+◌, ◌/◌, ◌≤◌, length, take};
ghost use Rattle.refusals.specs.Checks.{outcome};
ghost use Rattle.refusals.specs.Numbers.{code_of, said};
ghost use Rattle.gates.specs.Gates.{wires_of};
ghost use Rattle.gates.specs.Memory as Memory;
ghost use Rattle.two_pass.specs.Evaluation.{evaluation_checks, filled_wires};
ghost use Rattle.evaluator.specs.TrialBytes.{trial_bytes, wire_bytes};

use refusals::Refusal;

// Fills the front of the wires with the inputs and then each gate's value; later bytes stay as they are. Refused, it changes no byte.
pub fn evaluate(gates: &[u32], inputs: &[u8], wires: &mut [u8]) -> Result<(), Refusal>
    ensures value { result ≡ outcome (evaluation_checks gates.now inputs.now wires.old) }
    ensures wires_after { wires.new ≡ filled_wires gates.now inputs.now wires.old }
    ensures result_value { code_of result ∷ [] ≡ said (outcome (evaluation_checks gates.now inputs.now wires.old)) [] }
{
    let end = inputs.len() + gates.len() / 3;
    // Few wires do not repay a trial's array. The giant step's largest circuit has 217,129 without public rows and 317,481 with them: two
    // arrays, so that fewer wires do not clear the larger one.
    if 8192 <= end && end <= 221184 && gates::bits(inputs) {
        return try_out::<221184>(gates, inputs, wires);
    }
    if 221184 < end && end <= 319488 && gates::bits(inputs) {
        return try_out::<319488>(gates, inputs, wires);
    }
    two_pass::evaluate(gates, inputs, wires)
}

// Tries the gates out in an array of its own on the stack, a byte a wire.
fn try_out<const ROOM: usize>(gates: &[u32], inputs: &[u8], wires: &mut [u8]) -> Result<(), Refusal>
    requires room { ROOM ≤ 319488 }
    requires gates_len_bound { length inputs.now + length gates.now / 3 ≤ ROOM }
    requires inputs_value { Memory.bits inputs.now ≡ true }
    ensures value { result ≡ outcome (evaluation_checks gates.now inputs.now wires.old) }
    ensures wires_after { wires.new ≡ filled_wires gates.now inputs.now wires.old }
{
    let mut own = [0u8; ROOM];
    try_in(gates, inputs, &mut own, wires)
}

// Evaluates in a scratch buffer, judging each gate in passing, then gives the wires out: the gates are read once.
fn try_in(gates: &[u32], inputs: &[u8], scratch: &mut [u8], wires: &mut [u8]) -> Result<(), Refusal>
    requires gates_in_bounds { length inputs.now + length gates.now / 3 ≤ length scratch.old }
    requires inputs_value { Memory.bits inputs.now ≡ true }
    ensures value { result ≡ outcome (evaluation_checks gates.now inputs.now wires.old) }
    ensures wires_after { wires.new ≡ filled_wires gates.now inputs.now wires.old }
{
    let n = inputs.len();
    let count = n + gates.len() / 3;
    load_inputs(inputs, scratch);
    if !trial(gates, inputs, scratch) {
        return Err(Refusal::Gates);
    }
    if wires.len() < count {
        return Err(Refusal::Wires);
    }
    store_wires(scratch, wires, count);
    Ok(())
}

// Loads the inputs as the trial holds them: 2 more than the byte, and wire 0 as it is.
fn load_inputs(inputs: &[u8], scratch: &mut [u8])
    requires inputs_in_bounds { length inputs.now ≤ length scratch.old }
    requires inputs_value { Memory.bits inputs.now ≡ true }
    ensures { scratch.new ≡ Memory.over (trial_bytes (Memory.bits_of inputs.now)) scratch.old }
{
    let Some((&first, rest)) = inputs.split_first() else {
        return;
    };
    scratch[0] = first;
    for (i, &bit) in rest.iter().enumerate() {
        scratch[1 + i] = bit + 2;
    }
}

// Whether the words are gates after the inputs, which are loaded; if so, runs them.
fn trial(gates: &[u32], inputs: &[u8], scratch: &mut [u8]) -> bool
    requires gates_in_bounds { length inputs.now + length gates.now / 3 ≤ length scratch.old }
    requires scratch_value { take (length inputs.now) scratch.old ≡ trial_bytes (Memory.bits_of inputs.now) }
    ensures value { result ≡ Memory.accepted (length inputs.now) gates.now }
    ensures scratch_after { cond result scratch.new []
        ≡ cond result (Memory.over (trial_bytes (wires_of (Memory.bits_of inputs.now) (Memory.gates_of gates.now)))
        scratch.old) [] }
{
    let values = values::TRIAL_VALUES;
    let n = inputs.len();
    let (gates, rest) = gates.as_chunks::<3>();
    for (i, &[kind, a, b]) in gates.iter().enumerate() {
        let m = n + i;
        let a = a as usize;
        let b = b as usize;
        if m <= a {
            return false;
        }
        if m <= b {
            return false;
        }
        let u = 4 * (kind as usize) + (scratch[b] as usize);
        let at = 4 * u + (scratch[a] as usize);
        // A known kind, and wire 0 after INV: only it is held below 2. One test for both spares a jump.
        if 40 <= at {
            return false;
        }
        scratch[m] = values[at];
    }
    rest.is_empty()
}

// Stores the values of the first `count` wires: the trial's bytes without their 2.
fn store_wires(scratch: &[u8], wires: &mut [u8], count: usize)
    requires count_in_bounds { count ≤ length scratch.now }
    requires count_in_bounds_2 { count ≤ length wires.old }
    ensures { wires.new ≡ Memory.over (wire_bytes (take count scratch.now)) wires.old }
{
    for (i, &held) in scratch[..count].iter().enumerate() {
        wires[i] = held % 2;
    }
}
