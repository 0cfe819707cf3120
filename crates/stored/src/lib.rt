// A run in 101 words, as hosts hold it: n, standing, T, F, depth, then for each of the 32 levels T, F and the chosen variable.
#![tactic(auto)]

ghost use Rattle.std.specs.Prelude.{◌≡◌, true, ◌-◌, ◌^◌, min, drop};
ghost use Rattle.std.proofs.lemmas.List.Edits.{sets};
ghost use Rattle.stored.specs.Words.{standing_of, level_words, levels_in, holds_run, held_run, run_words, run_in};

use state::{Level, Run, Standing};
use std::array;

// The words of a run.
pub type RunWords = [u32; 101];

// Whether the words hold a run, well-formed or not.
fn holds(words: RunWords) -> bool
    ensures { result ≡ holds_run words }
{
    if 255 < words[0] {
        return false;
    }
    words[1] < 3
}

// The standing of a number below 3.
fn standing_of(number: u32) -> Standing
    ensures { result ≡ standing_of number }
{
    match number {
        1 => Standing::Satisfied,
        2 => Standing::Refuted,
        _ => Standing::Open,
    }
}

// The levels, from the sixth word on.
fn get_levels(words: RunWords) -> [Level; 32]
    ensures { result ≡ levels_in 32 (drop 5 words) }
{
    array::from_fn(|l| {
        let at = 5 + 3 * l;
        Level {
            t: words[at],
            f: words[at + 1],
            chosen: words[at + 2],
        }
    })
}

// The run of words that hold one.
fn get_run(words: RunWords) -> Run
    requires { holds_run words ≡ true }
    ensures { result ≡ held_run words }
{
    let standing = standing_of(words[1]);
    let levels = get_levels(words);
    Run {
        n: words[0] as u8,
        standing,
        t: words[2],
        f: words[3],
        depth: words[4] as usize,
        levels,
    }
}

// The run in the words, well-formed or not; one of no variables, which is not well-formed, if they hold none.
pub fn load(words: RunWords) -> Run
    ensures { result ≡ run_in words }
{
    if !holds(words) {
        return Run::fresh(0);
    }
    get_run(words)
}

// A depth as a word; one that no word holds as the largest word.
fn depth_word(depth: usize) -> u32
    ensures { result ≡ min depth (2 ^ 32 - 1) }
{
    if depth < 0xffff_ffff {
        return depth as u32;
    }
    0xffff_ffff
}

// The words with these levels from the sixth on.
fn put_levels(levels: [Level; 32], words: RunWords) -> RunWords
    ensures { result ≡ sets words 5 (level_words levels) }
{
    let mut out = words;
    for (l, level) in levels.iter().enumerate() {
        let at = 5 + 3 * l;
        out[at] = level.t;
        out[at + 1] = level.f;
        out[at + 2] = level.chosen;
    }
    out
}

// The words of a run.
pub fn words(run: Run) -> RunWords
    ensures { result ≡ run_words run }
{
    let standing = run.standing;
    let levels = run.levels;
    let mut out = [0u32; 101];
    out[0] = run.n as u32;
    out[1] = u32::from(standing);
    out[2] = run.t;
    out[3] = run.f;
    out[4] = depth_word(run.depth);
    put_levels(levels, out)
}
