// The binary digits of a variable's number: how many there are, and how many gates they take.
ghost use Rattle.std.specs.Prelude.{◌≡◌, ◌*◌, ◌-◌, ◌^◌, ◌≤◌};
ghost use Rattle.sections.specs.Addressing as Addressing;
ghost use Rattle.sections.specs.Addressing.{digits_for, digits_to};

// How many digits the number of one of n variables has; five for more than 32.
pub(crate) fn digits_for(n: u32) -> u32
    ensures value { result ≡ digits_for n }
    ensures upper_bound { result ≤ 5 }
{
    if n <= 1 {
        0
    } else if n <= 2 {
        1
    } else if n <= 4 {
        2
    } else if n <= 8 {
        3
    } else if n <= 16 {
        4
    } else {
        5
    }
}

// x less y; 0 where y is the greater.
pub(crate) fn less(x: u32, y: u32) -> u32
    ensures { result ≡ x - y }
{
    if x < y { 0 } else { x - y }
}

// 2 to the power d.
pub(crate) fn power(d: u32) -> u32
    requires { d ≤ 5 }
    ensures value { result ≡ 2 ^ d }
    ensures upper_bound { result ≤ 32 }
{
    1 << d
}

// How many thresholds the digit of weight 2 to the power d has.
pub(crate) fn thresholds(n: u32, d: u32) -> u32
    requires { (n ≤ 255) × (d ≤ 5) }
    ensures value { result ≡ Addressing.thresholds n d }
    ensures upper_bound { (result ≤ 255) × (2 ^ d * result ≤ n) }
{
    less(n, 1) >> d
}

// How many gates the digits below d have, of m rows.
pub(crate) fn digits_to(n: u32, m: u32, d: u32) -> u32
    requires { (n ≤ 255) × (m ≤ 765) × (d ≤ 5) }
    ensures value { result ≡ digits_to n m d }
    ensures upper_bound { result ≤ 979200 }
{
    (0..d).map(|k| (1 + thresholds(n, k)) * m).sum()
}
