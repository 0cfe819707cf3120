// Squares of 32 rows by 32 variables: a square's positive and negative planes by value, from a table's words and from the words of planes
// (document 02, "Columns before rows"). Nothing here is refused.
#![tactic(auto)]

ghost use Rattle.std.specs.Prelude.{◌≡◌, true, [], ◌∷◌, ◌+◌, ◌≤◌, ◌<◌, get_or};
ghost use Rattle.squares.specs.Squares.{transposed, square_at, square_rows};
ghost use Rattle.squares.specs.Steps.{fine, low_word, high_word, staged, picked};

use std::array;

// A square's positive and negative planes: word i of a plane holds variable i + 1 over 32 rows. Its rows are held in the same form, their
// positive words and their negative words.
pub type Square = [[u32; 32]; 2];

// ---- the columns of 32 words, in five steps: each moves one binary digit of the place in a word into the word's number, and one back

// A word of the 32. As a call's result its range is known.
fn word(words: &[u32; 32], at: usize) -> u32
    requires { at < 32 }
    ensures { result ≡ get_or words.now at 0 }
{
    words[at]
}

// Word 2 × j after the step of distance d, from words j and j + 16: the first one's bits at the mask's places, and the second one's moved
// between them. The mask has the places whose digit of weight d is 0.
fn low(a: u32, b: u32, d: u32, mask: u32) -> u32
    requires { (d < 32) × (fine d mask ≡ true) }
    ensures { result ≡ low_word a b d }
{
    (a & mask) | ((b & mask) << d)
}

// Word 2 × j + 1 after the step: the other bits of both.
fn high(a: u32, b: u32, d: u32, mask: u32) -> u32
    requires { (d < 32) × (fine d mask ≡ true) }
    ensures { result ≡ high_word a b d }
{
    ((a >> d) & mask) | (b & !mask)
}

// All words after the step of distance d. The words of each pair are as far apart in every step, so that the compiler takes several pairs
// at once.
fn stage(words: [u32; 32], d: u32, mask: u32) -> [u32; 32]
    requires { (d < 32) × (fine d mask ≡ true) }
    ensures { result ≡ staged words d }
{
    let mut next = [0u32; 32];
    // By number: word pairs go to places 2 × j and 2 × j + 1, and after `chunks_exact_mut` a proof would know no word of `next`.
    for j in 0..16usize {
        let a = word(&words, j);
        let b = word(&words, j + 16);
        next[2 * j] = low(a, b, d, mask);
        next[2 * j + 1] = high(a, b, d, mask);
    }
    next
}

// The columns of 32 words: bit j of word i is bit i of word j.
pub fn transpose(words: [u32; 32]) -> [u32; 32]
    ensures { result ≡ transposed words }
{
    let a = stage(words, 16, 0x0000_ffff);
    let b = stage(a, 8, 0x00ff_00ff);
    let c = stage(b, 4, 0x0f0f_0f0f);
    let d = stage(c, 2, 0x3333_3333);
    stage(d, 1, 0x5555_5555)
}

// ---- squares of a table, and rows of planes

// The word at a place; 0 past the end.
fn word_at(words: &[u32], at: usize) -> u32
    ensures { result ≡ get_or words.now at 0 }
{
    if at < words.len() { words[at] } else { 0 }
}

// 32 words from a place on, at a distance from each other of one word or two.
fn pick(words: &[u32], at: usize, step: usize) -> [u32; 32]
    requires { (at < 65536) × (step ≤ 2) }
    ensures { result ≡ picked words.now at step }
{
    array::from_fn(|j| word_at(words, at + step * j))
}

// The columns of the words from a place on, and of those from `gap` words later on.
fn both(words: &[u32], at: usize, gap: usize, step: usize) -> Square
    requires { (at < 32768) × (gap < 32768) × (step ≤ 2) }
    ensures { result ≡ transposed (picked words.now at step) ∷ transposed (picked words.now (at + gap) step) ∷ [] }
{
    let first = transpose(pick(words, at, step));
    let second = transpose(pick(words, at + gap, step));
    [first, second]
}

// Square s of a table, from 0; past the last row all bits are zero.
pub fn square(table: &[u32], s: u8) -> Square
    ensures { result ≡ square_at table.now s }
{
    both(table, 64 * (s as usize), 1, 2)
}

// The rows of square s of the planes: their positive words and their negative words.
pub fn rows_of(planes: &[u32], s: u8) -> Square
    ensures { result ≡ square_rows planes.now s }
{
    both(planes, 64 * (s as usize), 32, 1)
}
