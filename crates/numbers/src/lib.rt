// Numbers as texts spell them: an optional minus and digits, however many.
//
// Nothing here is refused: each public function is total, whatever bytes it is handed.
#![tactic(auto)]

ghost use Rattle.std.specs.Prelude.{◌≡◌, ◌+◌, ◌*◌, ◌-◌, ◌≤◌};
ghost use Rattle.numbers.specs.Numbers.{is_digit, decimal_of, number_read};
ghost use Rattle.numbers.specs.CappedNumbers.{leading_zero, held, digits_held, number_held};

// A value with one digit more.
fn with_digit(v: u32, b: u8) -> u32
    requires v_bound { v ≤ 1000 }
    requires le_b { 48 ≤ b }
    ensures { result ≡ held (v * 10 + (b - 48)) }
{
    let w = v * 10 + ((b - b'0') as u32);
    if w <= 1000 { w } else { 1000 }
}

// Whether the byte is a decimal digit.
pub fn is_digit(b: u8) -> bool
    ensures { result ≡ is_digit b }
{
    b'0' <= b && b <= b'9'
}

// Whether a 0 comes before another digit.
fn leading_zero(word: &[u8]) -> bool
    ensures { result ≡ leading_zero word.now }
{
    1 < word.len() && word[0] == b'0'
}

// The value of one or more digits with no leading zero.
fn read_digits(word: &[u8]) -> Option<u32>
    ensures { result ≡ digits_held (decimal_of word.now) }
{
    if word.is_empty() || leading_zero(word) {
        return None;
    }
    let mut v = 0;
    for &b in word {
        if !is_digit(b) {
            return None;
        }
        v = with_digit(v, b);
    }
    Some(v)
}

// The number that a token is.
pub fn read_number(word: &[u8]) -> Option<(bool, u32)>
    ensures { result ≡ number_held (number_read word.now) }
{
    let Some(digits) = word.strip_prefix(b"-") else {
        return Some((false, read_digits(word)?));
    };
    let v = read_digits(digits)?;
    if v == 0 {
        return None;
    }
    Some((true, v))
}
