// A line of the circuit text in Bristol Fashion, by value (document 01, "Circuit"). Every number has at most 20 digits, so that 128 bytes
// take any line.
#![tactic(auto)]

ghost use Rattle.std.specs.Prelude.{◌≡◌, [], ◌∷◌, ◌++◌, ◌+◌, ◌≤◌, ◌<◌, length};
ghost use Rattle.std.proofs.lemmas.List.Edits.{sets};
ghost use Rattle.lexer.specs.Spelling as Spelling;
ghost use Rattle.text.specs.Decimal.{decimal};
ghost use Rattle.gates.specs.Memory.{gate_of};
ghost use Rattle.gates.specs.Gates.Gate.{INV};
ghost use Rattle.bristol_line.specs.Lines.{line, size_line, three_values, four_values, input_line, output_line, gate_line};
ghost use Rattle.bristol_line.specs.ByValue.{circuit_line_of, stations};

use dimensions::Dimensions;

// The first `length` bytes are the line, its LF with them.
#[derive(Clone, Copy)]
pub struct CircuitLine {
    pub bytes: [u8; 128],
    pub length: usize,
}

impl CircuitLine {
    // The first header line: how many gates and wires there are.
    pub fn sizes(gates: usize, wires: usize) -> Self
        ensures { result ≡ circuit_line_of (size_line gates wires) }
    {
        let mut bytes = [0u8; 128];
        let second = put_field(gates, b' ', &mut bytes, 0);
        let length = put_field(wires, b'\n', &mut bytes, second);
        CircuitLine { bytes, length }
    }

    // The second header line: the input values, three where there are no public rows, and else four.
    pub fn inputs(d: Dimensions) -> Self
        ensures { result ≡ circuit_line_of (input_line d) }
    {
        if d.public == 0 {
            return three_values(d);
        }
        four_values(d)
    }

    // The third header line: the two output values.
    pub fn outputs(d: Dimensions) -> Self
        ensures { result ≡ circuit_line_of (output_line d) }
    {
        let mut bytes = [0u8; 128];
        let state = put_field(2, b' ', &mut bytes, 0);
        let closing = put_field(d.state_wires(), b' ', &mut bytes, state);
        let length = put_field(1, b'\n', &mut bytes, closing);
        CircuitLine { bytes, length }
    }

    // The blank line.
    pub fn blank() -> Self
        ensures { result ≡ circuit_line_of (line []) }
    {
        let mut bytes = [0u8; 128];
        bytes[0] = b'\n';
        CircuitLine { bytes, length: 1 }
    }

    // The line of a gate of three words that drives a wire.
    pub fn gate(kind: u32, a: u32, b: u32, wire: usize) -> Self
        ensures { result ≡ circuit_line_of (gate_line wire (gate_of kind a b)) }
    {
        match kind {
            0 => two_inputs(a as usize, b as usize, wire, b"XOR\n"),
            1 => two_inputs(a as usize, b as usize, wire, b"AND\n"),
            _ => one_input(a as usize, wire),
        }
    }
}

// The second header line without a value for public rows.
fn three_values(d: Dimensions) -> CircuitLine
    ensures { result ≡ circuit_line_of (line (three_values d)) }
{
    let mut bytes = [0u8; 128];
    let state = put_stations(3, d, &mut bytes);
    let length = put_field(d.state_wires(), b'\n', &mut bytes, state);
    CircuitLine { bytes, length }
}

// The second header line with it, before the state.
fn four_values(d: Dimensions) -> CircuitLine
    ensures { result ≡ circuit_line_of (line (four_values d)) }
{
    let mut bytes = [0u8; 128];
    let public = put_stations(4, d, &mut bytes);
    let width = 2 * (d.n as usize) * (d.public as usize);
    let state = put_field(width, b' ', &mut bytes, public);
    let length = put_field(d.state_wires(), b'\n', &mut bytes, state);
    CircuitLine { bytes, length }
}

// Writes the number of values and the widths of the stations' rows, each followed by a space; the place after them.
fn put_stations(count: usize, d: Dimensions, bytes: &mut [u8; 128]) -> usize
    ensures upper_bound { result ≤ 63 }
    ensures value { result ≡ length (stations count d) }
    ensures bytes_after { bytes.new ≡ sets bytes.old 0 (stations count d) }
{
    let row = 2 * (d.n as usize);
    let left = put_field(count, b' ', bytes, 0);
    let right = put_field(row * (d.left as usize), b' ', bytes, left);
    put_field(row * (d.right as usize), b' ', bytes, right)
}

// The line of a gate of two inputs; the kind has its LF with it.
fn two_inputs(a: usize, b: usize, wire: usize, kind: &[u8; 4]) -> CircuitLine
    requires { length kind.now ≡ 4 }
    ensures { result ≡ circuit_line_of (Spelling.bytes "2 1 " ++ decimal a ++ (32 ∷ decimal b ++ (32 ∷ decimal wire ++ (32 ∷ kind.now)))) }
{
    let mut bytes = [0u8; 128];
    let first = put(b"2 1 ", &mut bytes, 0);
    let second = put_field(a, b' ', &mut bytes, first);
    let output = put_field(b, b' ', &mut bytes, second);
    let name = put_field(wire, b' ', &mut bytes, output);
    let length = put(kind, &mut bytes, name);
    CircuitLine { bytes, length }
}

// The line of a gate of one input.
fn one_input(a: usize, wire: usize) -> CircuitLine
    ensures { result ≡ circuit_line_of (gate_line wire (INV a)) }
{
    let mut bytes = [0u8; 128];
    let first = put(b"1 1 ", &mut bytes, 0);
    let output = put_field(a, b' ', &mut bytes, first);
    let name = put_field(wire, b' ', &mut bytes, output);
    let length = put(b"INV\n", &mut bytes, name);
    CircuitLine { bytes, length }
}

// Writes four bytes from a place on; the place after them. So do the next two, with other pieces of a line.
fn put(more: &[u8; 4], bytes: &mut [u8; 128], at: usize) -> usize
    requires more_len { length more.now ≡ 4 }
    requires at_bound { at + 4 ≤ 128 }
    ensures value { result ≡ at + length more.now }
    ensures bytes_after { bytes.new ≡ sets bytes.old at more.now }
{
    bytes[at] = more[0];
    bytes[at + 1] = more[1];
    bytes[at + 2] = more[2];
    bytes[at + 3] = more[3];
    at + 4
}

// A number's decimal digits.
fn put_number(x: usize, bytes: &mut [u8; 128], at: usize) -> usize
    requires { at + 20 < 128 }
    ensures value { result ≡ at + length (decimal x) }
    ensures bytes_after { bytes.new ≡ sets bytes.old at (decimal x) }
{
    if x < 10 {
        bytes[at] = 48 + x as u8;
        return at + 1;
    }
    let last = put_number(x / 10, bytes, at);
    bytes[last] = 48 + (x % 10) as u8;
    last + 1
}

// A number and the byte after it, a space or LF.
fn put_field(x: usize, behind: u8, bytes: &mut [u8; 128], at: usize) -> usize
    requires { at + 20 < 128 }
    ensures upper_bound { result ≤ at + 21 }
    ensures value { result ≡ at + length (decimal x ++ (behind ∷ [])) }
    ensures bytes_after { bytes.new ≡ sets bytes.old at (decimal x ++ (behind ∷ [])) }
{
    let end = put_number(x, bytes, at);
    bytes[end] = behind;
    end + 1
}
