// The circuit program's one function: a line of standard input goes in, what is printed comes out.
#![tactic(auto)]

ghost use Rattle.std.specs.Prelude.{◌≡◌, ◌≤◌, length, Ok};
ghost use Rattle.refusals.specs.Checks.{outcome};
ghost use Rattle.gates.specs.Memory.{gates_of, over};
ghost use Rattle.bristol.specs.Text.{circuit_text};
ghost use Rattle.bristol.specs.Writing.{circuit_checks};
ghost use Rattle.text.specs.Refused.{refused_line};
ghost use Rattle.io.specs.Counts.{IsPrefixLen};
ghost use Rattle.listing.specs.Listing.{text_for, listed};

use dimensions::Dimensions;
use refusals::Refusal;

// Three words for each gate of the greatest ceiling that is served, 5,461 gates.
const WORDS: usize = 16383;

// Room for the longest text of such a circuit: no line of its gates has more than 23 bytes.
pub const ROOM: usize = 131072;

// Puts a refusal's line to the front of the bytes; its length.
fn put_refusal(refusal: Refusal, bytes: &mut [u8; ROOM]) -> usize
    ensures value { result ≡ length (refused_line refusal) }
    ensures bytes_after { bytes.new ≡ over (refused_line refusal) bytes.old }
{
    let text = text::refused_line(refusal);
    let own = text.bytes;
    let length = text.length;
    bytes[..length].copy_from_slice(&own[..length]);
    length
}

// Puts a circuit's text there.
fn put_text(d: Dimensions, gates: &[u32], bytes: &mut [u8; ROOM]) -> usize
    requires gates_value { outcome (circuit_checks d gates.now) ≡ Ok tt }
    requires gates_len_bound { length (circuit_text d (gates_of gates.now)) ≤ 131072 }
    ensures value { result ≡ length (circuit_text d (gates_of gates.now)) }
    ensures bytes_after { bytes.new ≡ over (circuit_text d (gates_of gates.now)) bytes.old }
{
    let Ok((_, length)) = bristol::write_lines(d, gates, 0, bytes) else {
        return 0; // never so: the text has room
    };
    length
}

// Puts the text of the dimensions' circuit there, or the line of 1, 2 or 7.
fn put_circuit(d: Dimensions, bytes: &mut [u8; ROOM]) -> usize
    ensures value { result ≡ length (text_for d) }
    ensures bytes_after { bytes.new ≡ over (text_for d) bytes.old }
{
    let mut words = [0u32; WORDS];
    match generator::generate(d, &mut words) {
        Ok(count) => put_text(d, &words[..3 * count], bytes),
        Err(refusal) => put_refusal(refusal, bytes),
    }
}

// What the circuit program prints for a line: it is put to the front of the bytes, and its length is given. Later bytes stay as they are.
// The last clause follows from the others; with it a caller need not prove that `&bytes[..r]` is there.
pub fn list(line: &[u8], bytes: &mut [u8; ROOM]) -> usize
    ensures value { result ≡ length (listed line.now) }
    ensures bytes_after { bytes.new ≡ over (listed line.now) bytes.old }
    ensures prefix_len { IsPrefixLen result bytes.new }
{
    match lines::read_dimensions(line) {
        Ok((n, left, right, public)) => match Dimensions::new(n, left, right, public) {
            Ok(d) => put_circuit(d, bytes),
            Err(refusal) => put_refusal(refusal, bytes),
        },
        Err(refusal) => put_refusal(refusal, bytes),
    }
}
