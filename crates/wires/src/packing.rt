// Wires written into bytes, a byte a wire. Each function gives the place after what it wrote; the other bytes stay.
ghost use Rattle.std.specs.Prelude.{◌≡◌, [], ◌∷◌, ◌+◌, ◌*◌, ◌≤◌, ◌<◌, eqb, length};
ghost use Rattle.std.proofs.lemmas.List.Edits.{sets};
ghost use Rattle.words.specs.Booleans.{digit};
ghost use Rattle.words.specs.Sets.{bit};
ghost use Rattle.tables.specs.Rows.{rows_from};
ghost use Rattle.dimensions.specs.Sizes.{state_wire_count};
ghost use Rattle.state.specs.State.{state_of, is_satisfied};
ghost use Rattle.gates.specs.Memory.{bytes_of};
ghost use Rattle.wires.specs.Layout.{upto, row_bits, rows_bits, is_refuted, state_bits};
ghost use Rattle.wires.specs.Levels.{level_bits, level_in, levels_bits};

use state::{Level, Run, Standing};
use words::Row;

// A wire's byte.
fn byte(value: bool) -> u8
    ensures { result ≡ digit value }
{
    if value {
        return 1;
    }
    0
}

// A wire for each of n variables: whether the word has it.
fn put_set(n: usize, word: u32, bytes: &mut [u8], at: usize) -> usize
    requires n_bound { n ≤ 32 }
    requires n_in_bounds { at + n ≤ length bytes.old }
    ensures value { result ≡ at + n }
    ensures bytes_after { bytes.new ≡ sets bytes.old at (bytes_of (upto (bit word) n)) }
{
    for (i, wire) in bytes[at..at + n].iter_mut().enumerate() {
        *wire = byte(words::bit(word, i as u32));
    }
    at + n
}

// n wires, of which wire k is set; none if k is not below n.
fn put_one(n: usize, k: usize, bytes: &mut [u8], at: usize) -> usize
    requires { at + n ≤ length bytes.old }
    ensures value { result ≡ at + n }
    ensures bytes_after { bytes.new ≡ sets bytes.old at (bytes_of (upto (λ i. eqb i k) n)) }
{
    for (i, wire) in bytes[at..at + n].iter_mut().enumerate() {
        *wire = byte(i == k);
    }
    at + n
}

// A row: its positive wires, then its negative.
fn put_row(n: usize, row: Row, bytes: &mut [u8], at: usize) -> usize
    requires n_bound { n ≤ 32 }
    requires n_in_bounds { at + (n + n) ≤ length bytes.old }
    ensures value { result ≡ at + (n + n) }
    ensures bytes_after { bytes.new ≡ sets bytes.old at (bytes_of (row_bits n row)) }
{
    let middle = put_set(n, row.positive, bytes, at);
    put_set(n, row.negative, bytes, middle)
}

// A table's rows. Words past the end count as 0.
pub(crate) fn put_rows(n: usize, words: &[u32], rows: usize, bytes: &mut [u8], at: usize) -> usize
    requires n_bound { n ≤ 32 }
    requires rows_in_bounds { at + (n + n) * rows ≤ length bytes.old }
    ensures value { result ≡ at + (n + n) * rows }
    ensures bytes_after { bytes.new ≡ sets bytes.old at (bytes_of (rows_bits n (rows_from words.now 0 rows))) }
{
    let mut next = at;
    for j in 0..rows {
        next = put_row(n, tables::row_at(words, j), bytes, next);
    }
    next
}

// A level: T, F and the chosen variable.
fn put_level(n: usize, level: Level, bytes: &mut [u8], at: usize) -> usize
    requires n_bound { n ≤ 32 }
    requires n_in_bounds { at + (n + (n + n)) ≤ length bytes.old }
    ensures value { result ≡ at + (n + (n + n)) }
    ensures bytes_after { bytes.new ≡ sets bytes.old at (bytes_of (level_bits n level)) }
{
    let behind_t = put_set(n, level.t, bytes, at);
    let behind_f = put_set(n, level.f, bytes, behind_t);
    put_one(n, level.chosen as usize, bytes, behind_f)
}

// The level with this number; if it is unused, one whose wires are all zero, as no variable is its choice.
fn level_at(n: usize, levels: [Level; 32], depth: usize, l: usize) -> Level
    requires n_bound { n ≤ 32 }
    requires l_bound { l < 32 }
    ensures { result ≡ level_in n levels depth l }
{
    if l < depth {
        return levels[l];
    }
    Level {
        t: 0,
        f: 0,
        chosen: n as u32,
    }
}

// n levels from the first.
fn put_levels(n: usize, levels: [Level; 32], depth: usize, bytes: &mut [u8], at: usize) -> usize
    requires n_bound { n ≤ 32 }
    requires n_in_bounds { at + (n + (n + n)) * n ≤ length bytes.old }
    ensures value { result ≡ at + (n + (n + n)) * n }
    ensures bytes_after { bytes.new ≡ sets bytes.old at (bytes_of (levels_bits n levels depth n)) }
{
    let mut next = at;
    for l in 0..n {
        let level = level_at(n, levels, depth, l);
        next = put_level(n, level, bytes, next);
    }
    next
}

// Whether the run is closed as satisfied.
fn is_satisfied(standing: Standing) -> bool
    ensures { result ≡ is_satisfied standing }
{
    matches!(standing, Standing::Satisfied)
}

// Whether the run is closed as refuted.
fn is_refuted(standing: Standing) -> bool
    ensures { result ≡ is_refuted standing }
{
    matches!(standing, Standing::Refuted)
}

// The two closing wires.
fn put_standing(standing: Standing, bytes: &mut [u8], at: usize)
    requires { at + 2 ≤ length bytes.old }
    ensures { bytes.new ≡ sets bytes.old at (bytes_of (is_satisfied standing ∷ (is_refuted standing ∷ []))) }
{
    bytes[at] = byte(is_satisfied(standing));
    bytes[at + 1] = byte(is_refuted(standing));
}

// A state: T, F, depth, levels, then satisfied and refuted.
pub(crate) fn put_state(n: usize, run: Run, bytes: &mut [u8], at: usize)
    requires n_bound { n ≤ 32 }
    requires n_in_bounds { at + state_wire_count n ≤ length bytes.old }
    ensures { bytes.new ≡ sets bytes.old at (bytes_of (state_bits n (state_of run))) }
{
    let levels = run.levels;
    let depth = run.depth;
    let standing = run.standing;
    let behind_t = put_set(n, run.t, bytes, at);
    let behind_f = put_set(n, run.f, bytes, behind_t);
    let behind_depth = put_one(n + 1, depth, bytes, behind_f);
    let behind_levels = put_levels(n, levels, depth, bytes, behind_depth);
    put_standing(standing, bytes, behind_levels);
}
