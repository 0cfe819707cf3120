// What a literal that is made true makes of the tally: only its negation's own rows are read.
ghost use Rattle.std.specs.Prelude.{◌≡◌, ◌<◌};
ghost use Rattle.tally.specs.Words.{rows_without, rows_holding, all_after};

use crate::{Tally, rows};

// The rows of a set that do not hold the literal.
fn without(set: [u64; 6], index: &[u64; 384], literal: usize) -> [u64; 6]
    requires { literal < 64 }
    ensures { result ≡ rows_without set index.now literal }
{
    let at = 6 * literal;
    [
        set[0] & !index[at + 0],
        set[1] & !index[at + 1],
        set[2] & !index[at + 2],
        set[3] & !index[at + 3],
        set[4] & !index[at + 4],
        set[5] & !index[at + 5],
    ]
}

// The rows of a set that hold the literal.
fn holding(set: [u64; 6], index: &[u64; 384], literal: usize) -> [u64; 6]
    requires { literal < 64 }
    ensures { result ≡ rows_holding set index.now literal }
{
    let at = 6 * literal;
    [
        set[0] & index[at + 0],
        set[1] & index[at + 1],
        set[2] & index[at + 2],
        set[3] & index[at + 3],
        set[4] & index[at + 4],
        set[5] & index[at + 5],
    ]
}

// The tally after literal `own` is made true, `other` being its negation and `unset` the variables then free. A row that forced another
// variable's literal holds neither, so that literal is still forced.
pub(crate) fn after(
    words: &[u32; 768],
    index: &[u64; 384],
    own: usize,
    other: usize,
    unset: u32,
    tally: Tally,
) -> Tally
    requires { (own < 64) × (other < 64) }
    ensures { result ≡ all_after words.now index.now own other unset tally }
{
    let positive = tally.positive & unset;
    let negative = tally.negative & unset;
    let unsatisfied = tally.unsatisfied;
    let still = without(unsatisfied, index, own);
    let look = holding(still, index, other);
    rows::gather(words, unset, positive, negative, still, look)
}
