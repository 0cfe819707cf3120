// The generator of the giant step's circuit, which writes it into lent words (document 01, "Circuit"). Refusals: 1, 2, 7.
#![tactic(auto)]

mod cells;
mod templates;

ghost use Rattle.std.specs.Prelude.{◌≡◌, [], ◌∷◌, ◌+◌, ◌*◌, ◌≤◌, length, Ok};
ghost use Rattle.std.proofs.lemmas.List.Edits.{sets};
ghost use Rattle.refusals.specs.Checks as Checks;
ghost use Rattle.refusals.specs.Numbers.{said};
ghost use Rattle.gates.specs.Memory.{words_of};
ghost use Rattle.dimensions.specs.Sizes.{size_checks, ceiling};
ghost use Rattle.sections.specs.Addressing.{addresses_on};
ghost use Rattle.netlist.specs.Arrays.{rows};
ghost use Rattle.netlist.specs.Netlist.{circuit, gates_on};
ghost use Rattle.generator.specs.Storing.{gates_at};
ghost use Rattle.generator.specs.Generation as Generation;
ghost use Rattle.generator.specs.Generation.{generator_checks, generated_code, generated_numbers, written_words, Carried};

use dimensions::Dimensions;
use refusals::Refusal;
use sections::{Addresses, Section};

// Writes the circuit of these dimensions from the front of the words; later words stay as they are. Refused, it changes no word.
pub fn generate(d: Dimensions, words: &mut [u32]) -> Result<usize, Refusal>
    ensures value { result ≡ Generation.generated d words.old }
    ensures words_after { words.new ≡ written_words d words.old }
    ensures carried { Carried d result words.new }
    ensures result_value { generated_code result ∷ generated_numbers result ≡ said (Checks.outcome (generator_checks d words.old))
        (length (gates_on d) ∷ []) }
{
    d.check()?;
    if words.len() < 3 * d.ceiling() {
        return Err(Refusal::GateBuffer);
    }
    Ok(write(words, d))
}

// Writes the circuit, and says how many gates it has.
fn write(words: &mut [u32], d: Dimensions) -> usize
    requires { (Checks.outcome (size_checks d) ≡ Ok tt) × (3 * ceiling d ≤ length words.old) }
    ensures value { result ≡ length (circuit (addresses_on d)) }
    ensures words_after { words.new ≡ sets words.old 0 (words_of (circuit (addresses_on d))) }
{
    let a = Addresses::of(d);
    let inputs = a.inputs;
    let gates = a.wires - inputs;
    sections(words, d, inputs, 41 + d.n as u32);
    gates as usize
}

// Writes the first `count` sections of the circuit.
fn sections(words: &mut [u32], d: Dimensions, inputs: u32, count: u32)
    requires d_value { (Checks.outcome (size_checks d) ≡ Ok tt) × (3 * ceiling d ≤ length words.old) }
    requires inputs_value { (inputs ≡ (addresses_on d).inputs) × (count ≤ 41 + d.n) }
    ensures { words.new ≡ sets words.old 0 (words_of (rows (gates_at d) count)) }
{
    for k in 0..count {
        let s = Section::at(d, k);
        let first = s.template as usize;
        let end = first + s.size as usize;
        cells::section(words, inputs, first, end, s);
    }
}
