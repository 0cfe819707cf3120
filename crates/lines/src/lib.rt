// The lines that the programs read: the budget line and the dimension line.
#![tactic(auto)]

ghost use Rattle.std.specs.Prelude.{◌≡◌, ◌&&◌, cond, [], ◌∷◌, ◌+◌, ◌<◌, ltb, Some, None};
ghost use Rattle.lines.specs.Numbers.{on_budget, budget_of, budget_code};
ghost use Rattle.lines.specs.Numbers.{budget_numbers, on_dimension_line, dimension_line_of, dimension_line_said};
ghost use Rattle.lines.specs.Places.{field_end_at};

use refusals::Refusal;

// A line's bytes with its LF.
const LONGEST: usize = 100;

// The end of a field whose digits end at i, where a byte closes it or spoils it.
fn field_end(value: u64, at: usize, i: usize, closes: bool) -> Option<(u64, usize)>
    requires { i < 18446744073709551615 }
    ensures { result ≡ cond (ltb at i && closes) (Some (value, (i + 1))) None }
{
    if at < i {
        if closes {
            return Some((value, i + 1));
        }
    }
    None
}

// One or more digits from `at` on, at most 2^64 - 1, closed by a byte.
fn field(line: &[u8], at: usize, closing: u8) -> Option<(u64, usize)>
    ensures { result ≡ field_end_at line.now at closing }
{
    let mut value: u64 = 0;
    for i in at..line.len() {
        let b = line[i];
        if !numbers::is_digit(b) {
            return field_end(value, at, i, b == closing);
        }
        value = value.checked_mul(10)?.checked_add((b - b'0') as u64)?;
    }
    None // no byte closes it
}

// The budget of a line: digits and LF, at most 100 bytes; bytes after the LF are not looked at.
pub fn read_budget(input: &[u8]) -> Result<u64, Refusal>
    ensures value { result ≡ budget_of input.now }
    ensures result_value { budget_code result ∷ budget_numbers result ≡ on_budget input.now (8 ∷ []) (λ v. 0 ∷ (v ∷ [])) }
{
    let Some((value, end)) = field(input, 0, b'\n') else {
        return Err(Refusal::NumberLine);
    };
    if end <= LONGEST {
        return Ok(value);
    }
    Err(Refusal::NumberLine)
}

// The four numbers of a dimension line: single spaces and LF, at most 100 bytes; bytes after the LF are not looked at.
pub fn read_dimensions(input: &[u8]) -> Result<(u64, u64, u64, u64), Refusal>
    ensures value { result ≡ dimension_line_of input.now }
    ensures result_value { dimension_line_said result ≡ on_dimension_line input.now (8 ∷ [])
        (λ n left right public. 0 ∷ (n ∷ (left ∷ (right ∷ (public ∷ []))))) }
{
    let Some((n, second)) = field(input, 0, b' ') else {
        return Err(Refusal::NumberLine);
    };
    let Some((left, third)) = field(input, second, b' ') else {
        return Err(Refusal::NumberLine);
    };
    let Some((right, fourth)) = field(input, third, b' ') else {
        return Err(Refusal::NumberLine);
    };
    let Some((public, end)) = field(input, fourth, b'\n') else {
        return Err(Refusal::NumberLine);
    };
    if end <= LONGEST {
        return Ok((n, left, right, public));
    }
    Err(Refusal::NumberLine)
}
