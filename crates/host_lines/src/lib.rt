// For hosts in C and Rust: the budget line is read, the circuit's lines and the answer are written. Each function is a thin call of a
// proved entry. A slice passes as a pointer and then a length, an array as a pointer. It returns 0 where the call is taken, else the
// refusal's number, and then it writes nothing.
#![tactic(auto)]

ghost use Rattle.std.specs.Prelude.{◌≡◌};
ghost use Rattle.bristol.specs.Writing as Writing;
ghost use Rattle.bristol.specs.Writing.{line_code, line_numbers, lines_code, lines_numbers};
ghost use Rattle.answers.specs.Printed.{answer_text};
ghost use Rattle.refusals.specs.Checks.{outcome};
ghost use Rattle.lines.specs.Numbers.{budget_of, budget_code, budget_numbers};
ghost use Rattle.refusals.specs.Numbers.{code_of};
ghost use Rattle.lent.specs.Lent.{numbers_or};
ghost use Rattle.codes.specs.Codes.{as_byte, host_dimensions, variable_checks};
ghost use Rattle.host_lines.specs.Answers.{answer_from, text_given, length_given};

use solver::Answer;

// The budget of a line, digits and LF, at most 100 bytes; 8 where it is refused, and then no number is written.
pub fn forkhemit_read_budget(line: &[u8], budget: &mut [u64; 1]) -> u8
    ensures value { result ≡ budget_code (budget_of line.now) }
    ensures budget_after { budget.new ≡ numbers_or (budget_numbers (budget_of line.now)) budget.old }
{
    match lines::read_budget(line) {
        Ok(count) => {
            *budget = [count];
            return 0;
        }
        Err(refusal) => return u8::from(refusal),
    }
}

// Writes the line of a number, from 0, over the front of the bytes, and its length, 0 past the last line; 1, 2, 9 or 11 where it is
// refused.
pub fn forkhemit_write_line(
    n: u64,
    left_rows: u64,
    right_rows: u64,
    public_rows: u64,
    gates: &[u32],
    line: u64,
    bytes: &mut [u8],
    length: &mut [u64; 1],
) -> u8
    ensures value { result ≡ line_code (Writing.written_line (host_dimensions n left_rows right_rows public_rows) gates.now line
        bytes.old) }
    ensures bytes_after { bytes.new ≡ Writing.filled_line (host_dimensions n left_rows right_rows public_rows) gates.now line
        bytes.old }
    ensures length_after { length.new ≡ numbers_or (line_numbers (Writing.written_line (host_dimensions n left_rows right_rows public_rows)
        gates.now line bytes.old)) length.old }
{
    let d = codes::dimensions(n, left_rows, right_rows, public_rows);
    match bristol::write_line(d, gates, line as usize, bytes) {
        Ok(Some(k)) => {
            *length = [k as u64];
            return 0;
        }
        Ok(None) => {
            *length = [0];
            return 0;
        }
        Err(refusal) => return u8::from(refusal),
    }
}

// Writes the lines from a number on, as many as fit, over the front of the bytes, and how many lines and bytes they are; 1, 2, 9 or 11
// where it is refused.
pub fn forkhemit_write_lines(
    n: u64,
    left_rows: u64,
    right_rows: u64,
    public_rows: u64,
    gates: &[u32],
    line: u64,
    bytes: &mut [u8],
    written: &mut [u64; 2],
) -> u8
    ensures value { result ≡ lines_code (Writing.written_lines (host_dimensions n left_rows right_rows public_rows) gates.now line
        bytes.old) }
    ensures bytes_after { bytes.new ≡ Writing.filled_lines (host_dimensions n left_rows right_rows public_rows) gates.now line
        bytes.old }
    ensures written_after { written.new ≡ numbers_or
        (lines_numbers (Writing.written_lines (host_dimensions n left_rows right_rows public_rows)
        gates.now line bytes.old)) written.old }
{
    let d = codes::dimensions(n, left_rows, right_rows, public_rows);
    match bristol::write_lines(d, gates, line as usize, bytes) {
        Ok((count, size)) => {
            *written = [count as u64, size as u64];
            return 0;
        }
        Err(refusal) => return u8::from(refusal),
    }
}

// Writes the answer as the pair program prints it over the front of the text, and its length; 1 where it is refused, and then nothing is
// written.
pub fn forkhemit_answer(
    n: u64,
    count: u64,
    verdict: u64,
    model: u64,
    text: &mut [u8; 256],
    length: &mut [u64; 1],
) -> u8
    ensures value { result ≡ code_of (outcome (variable_checks (as_byte n))) }
    ensures text_after { text.new ≡ text_given (as_byte n) (answer_text (as_byte n) (answer_from count verdict model)) text.old }
    ensures length_after { length.new ≡ length_given (as_byte n) (answer_text (as_byte n) (answer_from count verdict model)) length.old }
{
    let k = codes::byte(n);
    if let Err(refusal) = codes::check_variables(k) {
        return u8::from(refusal);
    }
    let answer = Answer {
        count,
        verdict: codes::verdict_from(verdict, model),
    };
    let printed = answers::answer_text(k, answer);
    *length = [printed.length as u64];
    lent::put_text(printed, text);
    0
}
