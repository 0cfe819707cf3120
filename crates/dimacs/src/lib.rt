// Reads DIMACS texts, those of the two stations and that of the public rest rules, into tables of row words.
#![tactic(auto)]

ghost use Rattle.std.specs.Prelude.{◌≡◌, [], ◌∷◌, ◌≤◌};
ghost use Rattle.refusals.specs.Numbers.{said};
ghost use Rattle.dimensions.specs.Sizes.{most_variables, most_rows};
ghost use Rattle.clauses.specs.First.{clauses_from};
ghost use Rattle.dimacs.specs.Text.{table_of, body_of, table_read, table_code};
ghost use Rattle.dimacs.specs.Body.{body_within};
ghost use Rattle.dimacs.specs.ThreeTexts.{text_tables, texts_outcome, texts_read, texts_code};

use clauses::Clause;
use dimensions::Dimensions;
use refusals::Refusal;

// A text's table: n, its row count and its row words, positive before negative; the words past the rows are zero.
#[derive(Clone, Copy)]
pub struct Table {
    pub n: u8,
    pub rows: u8,
    pub words: [u32; 256],
}

// The tables of three texts, left, right and public, with the n that they share.
#[derive(Clone, Copy)]
pub struct TextTables {
    pub n: u8,
    pub left_rows: u8,
    pub right_rows: u8,
    pub public_rows: u8,
    pub left: [u32; 256],
    pub right: [u32; 256],
    pub public: [u32; 256],
}

// The table of m clauses with which the text ends, or 5.
fn read_rows(text: &[u8], start: usize, n: u8, m: u8) -> Result<Table, Refusal>
    requires n_le_most_variables { n ≤ most_variables }
    requires m_le_most_rows { m ≤ most_rows }
    ensures { result ≡ table_read (body_of n m (clauses_from n text.now start)) }
{
    let rows = m as usize;
    let mut words = [0u32; 256];
    let mut at = start;
    for k in 0..rows {
        let Clause::Read(row, _, next) = clauses::read_clause(text, at, n) else {
            return Err(Refusal::Text);
        };
        words[2 * k] = row.positive;
        words[2 * k + 1] = row.negative;
        at = next;
    }
    let Clause::End = clauses::read_clause(text, at, n) else {
        return Err(Refusal::Text);
    };
    Ok(Table { n, rows: m, words })
}

// The same for any n and m: beyond their limits nothing is read.
pub fn read_body(text: &[u8], start: usize, n: u8, m: u8) -> Result<Table, Refusal>
    ensures value { result ≡ table_read (body_within n m (clauses_from n text.now start)) }
    ensures outcome_value { table_code result ∷ [] ≡ said (body_within n m (clauses_from n text.now start)).outcome [] }
{
    if (Dimensions::VARIABLES < n as u64) | (Dimensions::ROWS < m as u64) {
        return Err(Refusal::Text);
    }
    read_rows(text, start, n, m)
}

// The table of a text whose header has `least` rows or more, or 1, 2 or 5.
pub fn read(text: &[u8], least: u8) -> Result<Table, Refusal>
    ensures value { result ≡ table_read (table_of least text.now) }
    ensures outcome_value { table_code result ∷ [] ≡ said (table_of least text.now).outcome [] }
{
    if 65536 < text.len() {
        return Err(Refusal::Text);
    }
    let header = header::read_header(text, least);
    let (n, m) = header.sizes?;
    read_rows(text, header.end, n, m)
}

// The tables of the two stations' texts and of the public one: the left text's refusal, the right's, the public's, then 6.
pub fn read_tables(left: &[u8], right: &[u8], public: &[u8]) -> Result<TextTables, Refusal>
    ensures value { result ≡ texts_read (text_tables left.now right.now public.now) }
    ensures outcome_value { texts_code result ∷ []
        ≡ said (texts_outcome (table_of 1 left.now) (table_of 1 right.now) (table_of 0 public.now)) [] }
{
    let l = read(left, 1)?;
    let r = read(right, 1)?;
    let p = read(public, 0)?;
    if (l.n != r.n) | (l.n != p.n) {
        return Err(Refusal::TextsDiffer);
    }
    let left = l.words;
    let right = r.words;
    let public = p.words;
    Ok(TextTables {
        n: l.n,
        left_rows: l.rows,
        right_rows: r.rows,
        public_rows: p.rows,
        left,
        right,
        public,
    })
}
