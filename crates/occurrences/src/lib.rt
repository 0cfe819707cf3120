// For each literal the set of rows that hold it: an index of 384 words, six of 64 rows for each of 64 literals (document 02, "Which rows
// does a variable touch"). Nothing here is refused: each public function is total.
#![tactic(auto)]

ghost use Rattle.std.specs.Prelude.{◌≡◌, ◌+◌, ◌*◌, ◌≤◌, ◌<◌, min, length};
ghost use Rattle.std.proofs.lemmas.List.Edits.{sets};
ghost use Rattle.words.specs.Sets as Sets;
ghost use Rattle.words.specs.Sameness as Sameness;
ghost use Rattle.tables.specs.Tables.{lent_words, words_in};
ghost use Rattle.tables.specs.Rows.{rows_from};
ghost use Rattle.occurrences.specs.Index.{index_of};
ghost use Rattle.occurrences.specs.RowWords.{table_words, gathered, literals_of, turned, replaced_sets};

use dimensions::Dimensions;
use tables::Tables;
use words::Row;

// ---- the words of all rows

// How many words of a buffer are its rows'.
fn count(words: &[u32], rows: u8) -> usize
    ensures upper_bound { result ≤ 510 }
    ensures value { result ≡ length (table_words rows words.now) }
{
    let asked = 2 * (rows as usize);
    if asked < words.len() {
        return asked;
    }
    words.len()
}

// Stores the words of a table's rows from a place on, as many as there is room for; the place after them.
fn store(words: &[u32], rows: u8, at: usize, all: &mut [u32]) -> usize
    requires { at ≤ 1024 }
    ensures upper_bound { result ≤ at + 510 }
    ensures value { result ≡ at + length (table_words rows words.now) }
    ensures all_after { all.new ≡ sets all.old at (table_words rows words.now) }
{
    let end = count(words, rows);
    let from = at.min(all.len());
    let stored = end.min(all.len() - from);
    all[from..from + stored].copy_from_slice(&words[..stored]);
    at + end
}

// The words of the left rows, the right and the public ones, one after the other, and zeros.
pub fn row_words(d: Dimensions, tables: Tables<'_>) -> [u32; 768]
    ensures { result ≡ gathered d (lent_words tables) }
{
    let mut all = [0u32; 768];
    let right_at = store(tables.left, d.left, 0, &mut all);
    let public_at = store(tables.right, d.right, right_at, &mut all);
    store(tables.public, d.public, public_at, &mut all);
    all
}

// ---- the index

// The numbers of a row's literals, as a set.
fn literals(row: Row) -> u64
    ensures { result ≡ literals_of row }
{
    row.positive as u64 | (row.negative as u64) << 32
}

// Turns a row over in the set of each of these literals: in where it was not, out where it was.
fn turn_row(index: &mut [u64; 384], row: usize, literals: u64)
    requires { row < 384 }
    ensures { index.new ≡ turned (Sets.bit literals) row index.old }
{
    let mut left = literals;
    // A loop: std has no iterator over the bits of a word.
    while left != 0 {
        let l = u64::trailing_zeros(left) as usize;
        left &= left - 1;
        let at = 6 * l + row / 64;
        index[at] ^= 1 << (row % 64);
    }
}

// Takes the next row into the set of each of its literals.
fn add_row(words: &[u32; 768], r: usize, index: &mut [u64; 384])
    requires r_bound { r < 384 }
    requires index_value { index.old ≡ index_of (rows_from words.now 0 r) }
    ensures { index.new ≡ index_of (rows_from words.now 0 (r + 1)) }
{
    let row = tables::row_at(words, r);
    turn_row(index, r, literals(row));
}

// Takes the row of a number, from 0, out of the old one's sets and into the new one's; no set has a row at or above 384.
pub fn replace_row(index: &mut [u64; 384], row: usize, old: Row, new: Row)
    ensures { index.new ≡ replaced_sets index.old row old new }
{
    if row < 384 {
        turn_row(index, row, literals(old) ^ literals(new));
    }
}

// Makes the index of the first `rows` rows of the words, 384 at most: three literals a row are three stores.
pub fn fill(words: &[u32; 768], rows: usize, index: &mut [u64; 384])
    ensures { index.new ≡ index_of (rows_from words.now 0 (min rows 384)) }
{
    *index = [0u64; 384];
    for r in 0..rows.min(384) {
        add_row(words, r, index);
    }
}

// Whether two indexes are the same words.
pub fn same(a: &[u64], b: &[u64]) -> bool
    ensures { result ≡ Sameness.same a.now b.now }
{
    a == b
}
