// Gates and wires in memory (document 01, "Circuit"): which words are gates, which bytes are wires' values.
#![tactic(auto)]

ghost use Rattle.std.specs.Prelude.{◌≡◌, ◌≤◌};
ghost use Rattle.gates.specs.Memory as Memory;

// Whether the words are gates of a circuit with that number of inputs; where not, refusal 9.
pub fn accepted(gates: &[u32], inputs: usize) -> bool
    ensures { result ≡ Memory.accepted inputs gates.now }
{
    // No word names a wire at or above 2^32: further inputs change nothing, and the number of wires fits.
    if 4294967296 < inputs {
        return all_gates(gates, 4294967296);
    }
    all_gates(gates, inputs)
}

// Whether each byte is 0 or 1.
pub fn bits(bytes: &[u8]) -> bool
    ensures { result ≡ Memory.bits bytes.now }
{
    bytes.iter().all(|&b| b < 2)
}

// A word as an index.
fn wide(x: u32) -> usize
    ensures { result ≡ x }
{
    x as usize
}

// Whether three words are a gate that may drive wire m.
fn drives(kind: u32, a: u32, b: u32, m: usize) -> bool
    ensures { result ≡ Memory.drives m kind a b }
{
    if m <= wide(a) {
        return false;
    }
    if m <= wide(b) {
        return false;
    }
    // Kind and second word, as one number: a known kind, and 0 after INV. To choose between tests would take one more jump.
    wide(kind) * 4294967296 + wide(b) <= 8589934592
}

// Whether words are gates after n wires.
fn all_gates(gates: &[u32], n: usize) -> bool
    requires { n ≤ 4294967296 }
    ensures { result ≡ Memory.accepted n gates.now }
{
    let (gates, rest) = gates.as_chunks::<3>();
    if !rest.is_empty() {
        return false;
    }
    for (i, &[kind, a, b]) in gates.iter().enumerate() {
        if !drives(kind, a, b, n + i) {
            return false;
        }
    }
    true
}
