// The circuit text in Bristol Fashion, one line or as many as fit (document 01, "Circuit"). Refusals: 1, 2, 9, then 11.
#![tactic(auto)]

ghost use Rattle.std.specs.Prelude.{◌≡◌, ◌+◌, ◌/◌, ◌^◌, ◌<◌, cond, length, get_or, ltb, Ok, Err};
ghost use mathlib.Core.List.{[], ◌∷◌, flatten};
ghost use Rattle.refusals.specs.declared.Refusal.TheVariants.{LineBuffer};
ghost use Rattle.refusals.specs.Checks.{outcome};
ghost use Rattle.refusals.specs.Numbers.{said};
ghost use Rattle.gates.specs.Memory as Memory;
ghost use Rattle.bristol_line.specs.ByValue.{circuit_line_of};
ghost use Rattle.bristol.specs.Text.{gate_lines};
ghost use Rattle.bristol.specs.Writing as Writing;
ghost use Rattle.bristol.specs.Writing.{
  circuit_checks,
  line_at,
  written_line,
  line_code,
  line_numbers,
  filled_line,
  lines_written_from,
  written_lines,
};
ghost use Rattle.bristol.specs.Writing.{lines_code, lines_numbers, filled_lines};

use bristol_line::CircuitLine;
use dimensions::Dimensions;
use refusals::Refusal;

// Writes the line of a number, from 0, with its LF to the front of the bytes; later bytes stay as they are. Its length is returned, none
// where the number is past the last line. Refused, or asked past the last line, it changes no byte.
pub fn write_line(
    d: Dimensions,
    gates: &[u32],
    line: usize,
    bytes: &mut [u8],
) -> Result<Option<usize>, Refusal>
    ensures value { result ≡ written_line d gates.now line bytes.old }
    ensures bytes_after { bytes.new ≡ filled_line d gates.now line bytes.old }
    ensures result_value { line_code result ∷ line_numbers result ≡ said (outcome (Writing.line_checks d gates.now line bytes.old))
        (length (line_at d gates.now line) ∷ []) }
{
    check_circuit(d, gates)?;
    if 4 + gates.len() / 3 <= line {
        return Ok(None);
    }
    put_line(d, gates, line, bytes).map(Some)
}

// Writes the lines from a number on, each with its LF, as many as fit, to the front of the bytes; later bytes stay as they are. Refused, or
// asked past the last line, it changes no byte.
pub fn write_lines(
    d: Dimensions,
    gates: &[u32],
    line: usize,
    bytes: &mut [u8],
) -> Result<(usize, usize), Refusal>
    ensures value { result ≡ written_lines d gates.now line bytes.old }
    ensures bytes_after { bytes.new ≡ filled_lines d gates.now line bytes.old }
    ensures result_value { lines_code result ∷ lines_numbers result ≡ said (outcome (Writing.line_checks d gates.now line bytes.old))
        (length (lines_written_from d gates.now line bytes.old)
        ∷ (length (flatten (lines_written_from d gates.now line bytes.old)) ∷ [])) }
{
    check_circuit(d, gates)?;
    put_lines(d, gates, line, bytes)
}

// The lines of accepted gates' text from a number on, put one after the other while they fit: 11 if not even the first does.
fn put_lines(
    d: Dimensions,
    gates: &[u32],
    line: usize,
    bytes: &mut [u8],
) -> Result<(usize, usize), Refusal>
    requires { outcome (circuit_checks d gates.now) ≡ Ok tt }
    ensures value { result ≡ written_lines d gates.now line bytes.old }
    ensures bytes_after { bytes.new ≡ filled_lines d gates.now line bytes.old }
{
    let lines = 4 + gates.len() / 3;
    let mut at = 0;
    for next in line..lines {
        match put_line(d, gates, next, &mut bytes[at..]) {
            Ok(length) => at += length,
            Err(refusal) if next == line => return Err(refusal),
            Err(_) => return Ok((next - line, at)),
        }
    }
    Ok((lines.saturating_sub(line), at))
}

// A line of accepted gates' text put to the front of the bytes, if it fits: 11 if not.
fn put_line(d: Dimensions, gates: &[u32], line: usize, bytes: &mut [u8]) -> Result<usize, Refusal>
    requires gates_value { outcome (circuit_checks d gates.now) ≡ Ok tt }
    requires line_bound { line < 4 + length gates.now / 3 }
    ensures value { result ≡ cond (ltb (length bytes.old) (length (line_at d gates.now line))) (Err LineBuffer)
        (Ok (length (line_at d gates.now line))) }
    ensures bytes_after { bytes.new ≡ cond (ltb (length bytes.old) (length (line_at d gates.now line))) bytes.old
        (Memory.over (line_at d gates.now line) bytes.old) }
{
    let text = line_text(d, gates, line);
    let length = text.length;
    if bytes.len() < length {
        return Err(Refusal::LineBuffer);
    }
    let own = text.bytes;
    bytes[..length].copy_from_slice(&own[..length]);
    Ok(length)
}

// Whether dimensions and gates are a circuit's: 1, 2 or 9 if not.
fn check_circuit(d: Dimensions, gates: &[u32]) -> Result<(), Refusal>
    ensures { result ≡ outcome (circuit_checks d gates.now) }
{
    d.check()?;
    if !gates::accepted(gates, d.input_wires()) {
        return Err(Refusal::Gates);
    }
    Ok(())
}

// A line of accepted gates' text.
fn line_text(d: Dimensions, gates: &[u32], line: usize) -> CircuitLine
    requires gates_value { outcome (circuit_checks d gates.now) ≡ Ok tt }
    requires line_bound { line < 4 + length gates.now / 3 }
    ensures { result ≡ circuit_line_of (line_at d gates.now line) }
{
    let inputs = d.input_wires();
    match line {
        0 => CircuitLine::sizes(gates.len() / 3, inputs + gates.len() / 3),
        1 => CircuitLine::inputs(d),
        2 => CircuitLine::outputs(d),
        3 => CircuitLine::blank(),
        _ => gate_text(gates, inputs, line - 4),
    }
}

// The line of the gate of a number, from 0.
fn gate_text(gates: &[u32], inputs: usize, number: usize) -> CircuitLine
    requires inputs_bound { inputs < 2 ^ 62 }
    requires number_in_bounds { number < length gates.now / 3 }
    ensures { result ≡ circuit_line_of (get_or (gate_lines inputs (Memory.gates_of gates.now)) number []) }
{
    let at = 3 * number;
    CircuitLine::gate(gates[at], gates[at + 1], gates[at + 2], inputs + number)
}
