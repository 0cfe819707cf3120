// The rows that are unsatisfied, and those of them with few free variables, from the index, T and F: 64 rows at a time.
ghost use Rattle.std.specs.Prelude.{◌≡◌, cond, ◌+◌, ◌*◌, ◌<◌, ltb};
ghost use Rattle.words.specs.Sets.{word_of};
ghost use Rattle.tally.specs.RowsSeen.{with_variable, seen_in, left_in};

// Of 64 rows those that a variable looked at satisfies, those that hold one that is free, and those that hold two.
#[derive(Clone, Copy)]
pub struct RowsSeen {
    pub met: u64,
    pub one: u64,
    pub two: u64,
}

// Of 64 rows those that are unsatisfied, and of these those that hold at most one free variable.
#[derive(Clone, Copy)]
pub struct RowsLeft {
    pub unsatisfied: u64,
    pub few: u64,
}

// The set if the test holds, and else none.
fn only_if(test: bool, set: u64) -> u64
    ensures { result ≡ cond test set 0 }
{
    if test { set } else { 0 }
}

// What is seen of 64 rows with one more variable, in T and in F or not: these are the rows of its two literals. No branch depends on T and
// F, which a processor cannot predict.
fn with_variable(s: RowsSeen, in_t: bool, in_f: bool, positive: u64, negative: u64) -> RowsSeen
    ensures { result ≡ with_variable s in_t in_f positive negative }
{
    let free = only_if(!(in_t | in_f), positive | negative);
    RowsSeen {
        met: s.met | positive & negative | only_if(in_t, positive) | only_if(in_f, negative),
        one: s.one | free,
        two: s.two | s.one & free,
    }
}

// What all 32 variables show of rows 64 w to 64 w + 63.
fn look(index: &[u64; 384], w: usize, t: u32, f: u32) -> RowsSeen
    requires { w < 6 }
    ensures { result ≡ seen_in index.now t f 32 w }
{
    let mut seen = RowsSeen {
        met: 0,
        one: 0,
        two: 0,
    };
    // A range: v is the place in the index and the bit of T and F at once.
    for v in 0..32 {
        let i = v as usize;
        let positive = index[6 * i + w];
        let negative = index[6 * (32 + i) + w];
        seen = with_variable(seen, words::bit(t, v), words::bit(f, v), positive, negative);
    }
    seen
}

// Of rows 64 w to 64 w + 63 those below the count.
fn below(count: usize, w: usize) -> u64
    requires { w < 6 }
    ensures { result ≡ word_of (λ j. ltb (64 * w + j) count) 64 }
{
    let first = 64 * w;
    if count <= first {
        return 0;
    }
    let k = count - first;
    if 64 <= k {
        return 18446744073709551615;
    }
    (1 << k) - 1
}

// Of rows 64 w to 64 w + 63 those below the count that no variable satisfies, and of these those that hold at most one free variable.
pub(crate) fn rows_left(index: &[u64; 384], count: usize, w: usize, t: u32, f: u32) -> RowsLeft
    requires { w < 6 }
    ensures { result ≡ left_in index.now count t f w }
{
    let rows = below(count, w);
    if rows == 0 {
        return RowsLeft {
            unsatisfied: 0,
            few: 0,
        };
    }
    let seen = look(index, w, t, f);
    let unsatisfied = rows & !seen.met;
    RowsLeft {
        unsatisfied,
        few: unsatisfied & !seen.two,
    }
}
