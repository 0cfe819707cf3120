// Sets of rows as six words, bit j of word w for row 64 w + j, and what their rows show.
ghost use Rattle.std.specs.Prelude.{◌≡◌, ◌≤◌};
ghost use Rattle.words.specs.Sets as Sets;
ghost use Rattle.tally.specs.Words.{size_of, with_row, forced_among, forced_in, gathered};

use crate::Tally;

// What unsatisfied rows show: whether one has no free variable, and the variables of the literals that those with exactly one force,
// positive and negative.
#[derive(Clone, Copy)]
pub struct Forced {
    pub conflict: bool,
    pub positive: u32,
    pub negative: u32,
}

// How many rows a word of a set has.
fn size(set: u64) -> u32
    ensures { (result ≡ Sets.count (Sets.bit set) 64) × (result ≤ 64) }
{
    u64::count_ones(set)
}

// The lowest row of a word of a set; 64 if it has none.
fn lowest(set: u64) -> u32
    ensures { result ≡ Sets.lowest (Sets.bit set) 64 }
{
    u64::trailing_zeros(set)
}

// How many rows the set has.
fn number(set: [u64; 6]) -> u32
    ensures { result ≡ size_of set }
{
    size(set[0]) + size(set[1]) + size(set[2]) + size(set[3]) + size(set[4]) + size(set[5])
}

// What is shown with one more row of these words, `unset` being the free variables.
fn with_row(s: Forced, positive: u32, negative: u32, unset: u32) -> Forced
    ensures { result ≡ with_row s positive negative unset }
{
    let variables = (positive | negative) & unset;
    if variables == 0 {
        return Forced {
            conflict: true,
            positive: s.positive,
            negative: s.negative,
        };
    }
    if !words::single(variables) {
        return s;
    }
    Forced {
        conflict: s.conflict,
        positive: s.positive | (positive & variables),
        negative: s.negative | (negative & variables),
    }
}

// The same with a set of the 64 rows from `first` on. Only the set's own rows are read.
fn with_rows(words: &[u32; 768], first: usize, set: u64, unset: u32, s: Forced) -> Forced
    requires { first ≤ 320 }
    ensures { result ≡ forced_among words.now first set unset s }
{
    let mut left = set;
    let mut shown = s;
    // A loop: std has no iterator over the bits of a word.
    while left != 0 {
        let at = 2 * (first + lowest(left) as usize);
        left &= left - 1;
        shown = with_row(shown, words[at], words[at + 1], unset);
    }
    shown
}

// The same with a set of all rows.
fn with_set(words: &[u32; 768], set: [u64; 6], unset: u32, s: Forced) -> Forced
    ensures { result ≡ forced_in words.now set unset s }
{
    let s0 = with_rows(words, 0, set[0], unset, s);
    let s1 = with_rows(words, 64, set[1], unset, s0);
    let s2 = with_rows(words, 128, set[2], unset, s1);
    let s3 = with_rows(words, 192, set[3], unset, s2);
    let s4 = with_rows(words, 256, set[4], unset, s3);
    with_rows(words, 320, set[5], unset, s4)
}

// The tally of these unsatisfied rows: forced are the literals of these variables and those that the rows looked at force.
pub(crate) fn gather(
    words: &[u32; 768],
    unset: u32,
    positive: u32,
    negative: u32,
    unsatisfied: [u64; 6],
    look: [u64; 6],
) -> Tally
    ensures { result ≡ gathered words.now unset positive negative unsatisfied look }
{
    let start = Forced {
        conflict: false,
        positive,
        negative,
    };
    let shown = with_set(words, look, unset, start);
    Tally {
        number: number(unsatisfied),
        conflict: shown.conflict,
        unsatisfied,
        positive: shown.positive,
        negative: shown.negative,
    }
}
