// Two stations' clause tables and the public one: when they are accepted, and the judging of a row.
#![tactic(auto)]

ghost use Rattle.std.specs.Prelude.{◌≡◌, ◌*◌, ◌≤◌, [], ◌∷◌, get_or, length, take};
ghost use Rattle.words.specs.Sets.{bit};
ghost use Rattle.refusals.specs.Checks.{outcome};
ghost use Rattle.refusals.specs.Numbers.{code_of, said};
ghost use Rattle.tables.specs.Tables.{lent_words};
ghost use Rattle.tables.specs.Rows.{row_at, lowest_or, judged};
ghost use Rattle.tables.specs.Acceptance.{table_checks, all_below};

use dimensions::Dimensions;
use refusals::Refusal;
use words::Row;

// What T and F make of a row: whether it is satisfied, how many of its at most 64 literals are free, the set of its free variables, and the
// variable to look at.
#[derive(Clone, Copy)]
pub struct Judged {
    pub satisfied: bool,
    pub literals: u8,
    pub variables: u32,
    pub look: Option<u8>,
}

// The word's lowest variable is to be looked at; where it has none, the other.
fn lowest_or(word: u32, other: Option<u8>) -> Option<u8>
    ensures { result ≡ lowest_or (bit word) 32 other }
{
    if word == 0 {
        return other;
    }
    Some(words::lowest(word) as u8)
}

// The row judged against T and F.
pub fn judge(row: Row, t: u32, f: u32) -> Judged
    ensures { result ≡ judged 32 row t f }
{
    let positive = row.positive;
    let negative = row.negative;
    let unset = !(t | f);
    let both = positive & negative;
    let met = both | (positive & t) | (negative & f);
    let literals = words::count(positive & unset) + words::count(negative & unset);
    let variables = (positive | negative) & unset;
    let look = lowest_or(both, lowest_or(met, lowest_or(variables, None)));
    Judged {
        satisfied: met != 0,
        literals,
        variables,
        look,
    }
}

// The word at a place; 0 past the end.
fn word_at(words: &[u32], at: usize) -> u32
    ensures { result ≡ get_or words.now at 0 }
{
    if at < words.len() { words[at] } else { 0 }
}

// Row i from 0 of a table's words. Words past the end count as 0.
pub fn row_at(words: &[u32], i: usize) -> Row
    ensures { result ≡ row_at words.now i }
{
    if words.len() / 2 < i {
        return Row {
            positive: 0,
            negative: 0,
        };
    }
    Row {
        positive: word_at(words, 2 * i),
        negative: word_at(words, 2 * i + 1),
    }
}

// Whether no word has a bit at or above n.
pub fn all_below(words: &[u32], n: u32) -> bool
    ensures { result ≡ all_below n words.now }
{
    words.iter().all(|&word| words::below(word, n))
}

// The row words of the left station's table, of the right one's and of the public one, as they are lent: two words a row. Words past a
// table's rows are not looked at.
#[derive(Clone, Copy)]
pub struct Tables<'a> {
    pub left: &'a [u32],
    pub right: &'a [u32],
    pub public: &'a [u32],
}

// The words of the first rows; all words where they are fewer.
fn first_rows(words: &[u32], rows: u8) -> &[u32]
    ensures { result.now ≡ take (2 * rows) words.now }
{
    &words[..words.len().min(2 * rows as usize)]
}

impl<'a> Tables<'a> {
    // The words of the rows alone, without those behind them.
    pub fn rows(self, d: Dimensions) -> Tables<'a>
        ensures left { result.left.now ≡ take (2 * d.left) self.entry.left.now }
        ensures right { result.right.now ≡ take (2 * d.right) self.entry.right.now }
        ensures public { result.public.now ≡ take (2 * d.public) self.entry.public.now }
    {
        Tables {
            left: first_rows(self.left, d.left),
            right: first_rows(self.right, d.right),
            public: first_rows(self.public, d.public),
        }
    }
}

// Whether the three tables are accepted: 1, 2, 4 or 3 if not.
pub fn accept(d: Dimensions, tables: Tables<'_>) -> Result<(), Refusal>
    ensures value { result ≡ outcome (table_checks d (lent_words tables)) }
    ensures result_value { code_of result ∷ [] ≡ said (outcome (table_checks d (lent_words tables))) [] }
{
    d.check()?;
    let left_words = 2 * (d.left as usize);
    let right_words = 2 * (d.right as usize);
    let public_words = 2 * (d.public as usize);
    if (tables.left.len() < left_words)
        | (tables.right.len() < right_words)
        | (tables.public.len() < public_words)
    {
        return Err(Refusal::RowBuffer);
    }
    let rows = tables.rows(d);
    let n = d.n as u32;
    if !all_below(rows.left, n) | !all_below(rows.right, n) | !all_below(rows.public, n) {
        return Err(Refusal::RowBit);
    }
    Ok(())
}
