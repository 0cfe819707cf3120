// Wires read from bytes, a byte a wire. A wire is set where its byte is 1.
ghost use Rattle.std.specs.Prelude.{◌≡◌, ◌+◌, ◌*◌, ◌≤◌, ◌<◌, eqb, length};
ghost use Rattle.words.specs.Booleans.{digit};
ghost use Rattle.words.specs.Sets.{lowest, word_of};
ghost use Rattle.dimensions.specs.Sizes.{state_wire_count};
ghost use Rattle.readback.specs.Unpacking.{wire_in, standing_of, run_in};
ghost use Rattle.readback.specs.Levels.{level_from, levels_from};

use dimensions::Dimensions;
use state::{Level, Run, Standing};

// A wire's digit.
fn value(byte: u8) -> u32
    ensures value { result ≡ digit (eqb byte 1) }
    ensures upper_bound { result < 2 }
{
    if byte == 1 {
        return 1;
    }
    0
}

// The set of those of n variables whose wires are set.
fn get_set(n: usize, bytes: &[u8], at: usize) -> u32
    requires n_bound { n ≤ 32 }
    requires n_in_bounds { at + n ≤ length bytes.now }
    ensures { result ≡ word_of (λ i. wire_in bytes.now (at + i)) n }
{
    let mut word = 0;
    for byte in bytes[at..at + n].iter().rev() {
        word = value(*byte) + 2 * word;
    }
    word
}

// The lowest of n wires that is set; n if none is.
fn get_one(n: usize, bytes: &[u8], at: usize) -> usize
    requires { at + n ≤ length bytes.now }
    ensures value { result ≡ lowest (λ i. wire_in bytes.now (at + i)) n }
    ensures upper_bound { result ≤ n }
{
    bytes[at..at + n]
        .iter()
        .position(|byte| *byte == 1)
        .unwrap_or(n)
}

// A level: T, F and the chosen variable.
fn get_level(n: usize, bytes: &[u8], at: usize) -> Level
    requires n_bound { n ≤ 32 }
    requires n_in_bounds { at + (n + (n + n)) ≤ length bytes.now }
    ensures { result ≡ level_from n bytes.now at }
{
    let chosen = get_one(n, bytes, at + n + n);
    Level {
        t: get_set(n, bytes, at),
        f: get_set(n, bytes, at + n),
        chosen: chosen as u32,
    }
}

// The first depth levels, and no other.
fn get_levels(n: usize, depth: usize, bytes: &[u8], at: usize) -> [Level; 32]
    requires n_bound { n ≤ 32 }
    requires depth_bound { depth ≤ 32 }
    requires depth_in_bounds { at + (n + (n + n)) * depth ≤ length bytes.now }
    ensures { result ≡ levels_from n depth bytes.now at }
{
    let mut levels = [Level {
        t: 0,
        f: 0,
        chosen: 0,
    }; 32];
    let mut next = at;
    for level in &mut levels[..depth] {
        *level = get_level(n, bytes, next);
        next += 3 * n;
    }
    levels
}

// The standing of the two closing wires; satisfied where both are set, which packs otherwise.
fn standing(satisfied: bool, refuted: bool) -> Standing
    ensures { result ≡ standing_of satisfied refuted }
{
    if satisfied {
        return Standing::Satisfied;
    }
    if refuted {
        return Standing::Refuted;
    }
    Standing::Open
}

// The run of n in the bytes, well-formed or not.
pub(crate) fn get_run(n: u8, bytes: &[u8]) -> Run
    requires n_bound { n ≤ 32 }
    requires n_in_bounds { state_wire_count n ≤ length bytes.now }
    ensures { result ≡ run_in n bytes.now }
{
    let k = n as usize;
    let depth = get_one(k, bytes, k + k);
    let levels = get_levels(k, depth, bytes, 3 * k + 1);
    let last = Dimensions::state_wires_of(n) - 2;
    let t = get_set(k, bytes, 0);
    let f = get_set(k, bytes, k);
    let standing = standing(bytes[last] == 1, bytes[last + 1] == 1);
    Run {
        n,
        standing,
        t,
        f,
        depth,
        levels,
    }
}
