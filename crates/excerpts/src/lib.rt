// A clause's own bytes in the texts of the two stations, by the number of its row (document 02, "The rule behind each step").
#![tactic(auto)]

ghost use Rattle.std.specs.Prelude.{◌≡◌, ◌∷◌, [], ◌+◌, ◌*◌, ◌≤◌, ◌<◌, length};
ghost use Rattle.refusals.specs.Numbers.{said, code_of};
ghost use Rattle.refusals.specs.Checks.{outcome};
ghost use Rattle.clauses.specs.First.{clauses_from, first};
ghost use Rattle.tables.specs.Tables.{lent_words};
ghost use Rattle.dimacs.specs.Text.{as_read};
ghost use Rattle.excerpts.specs.Excerpts.{has_clause, text_checks, excerpt_checks, skip, clause_of, between, place_of, clause_place};
ghost use Rattle.excerpts.specs.Excerpts.{placed, placed_code, place_numbers, placed_numbers, clause_bytes};
ghost use Rattle.excerpts.specs.PlaceByWords.{place_held, Ordered};

use clauses::Clause;
use dimacs::Table;
use dimensions::Dimensions;
use refusals::Refusal;
use tables::Tables;
use words::Row;

// Where a clause is: the text of station 0, the left one, or 1, the right one, its first byte and how many they are.
#[derive(Clone, Copy)]
pub struct Place {
    pub station: u8,
    pub start: usize,
    pub length: usize,
}

// ---- checks

// Whether the row is a station's and each text has its table's n and row count.
fn has_clause(d: Dimensions, left: Table, right: Table, number: u64) -> bool
    ensures { result ≡ has_clause d (as_read left) (as_read right) number }
{
    let rows = (d.left as u64) + (d.right as u64);
    let station = (0 < number) & (number <= rows);
    let left_sizes = (left.n == d.n) & (left.rows == d.left);
    let right_sizes = (right.n == d.n) & (right.rows == d.right);
    station & (left_sizes & right_sizes)
}

// What two texts that were read are refused with: 6, then 17.
fn check_texts(d: Dimensions, left: Table, right: Table, number: u64) -> Result<(), Refusal>
    ensures { result ≡ outcome (text_checks d (as_read left) (as_read right) number) }
{
    if left.n != right.n {
        return Err(Refusal::TextsDiffer);
    }
    if !has_clause(d, left, right, number) {
        return Err(Refusal::NoClause);
    }
    Ok(())
}

// Whether the clause of a row may be asked for: 5 for an overlong text, the tables' 1, 2, 4, 3, the left text's 1, 2, 5, the right text's,
// 6, then 17.
pub fn check_excerpt(
    d: Dimensions,
    tables: Tables<'_>,
    left_text: &[u8],
    right_text: &[u8],
    number: u64,
) -> Result<(), Refusal>
    ensures value { result ≡ outcome (excerpt_checks d (lent_words tables) left_text.now right_text.now number) }
    ensures result_value { code_of result ∷ [] ≡ said (outcome (excerpt_checks d (lent_words tables) left_text.now
        right_text.now number)) [] }
{
    if (65536 < left_text.len()) | (65536 < right_text.len()) {
        return Err(Refusal::Text);
    }
    tables::accept(d, tables)?;
    let left_table = dimacs::read(left_text, 1)?;
    let right_table = dimacs::read(right_text, 1)?;
    check_texts(d, left_table, right_table, number)
}

// ---- places

// Clause k, from 0, of those from a place on; none past the last.
fn nth_clause(text: &[u8], start: usize, n: u8, k: usize) -> Clause
    requires { n ≤ 32 }
    ensures { result ≡ first (skip k (clauses_from n text.now start)) }
{
    let mut at = start;
    for _ in 0..k {
        let Clause::Read(_, _, next) = clauses::read_clause(text, at, n) else {
            return Clause::Unreadable;
        };
        at = next;
    }
    clauses::read_clause(text, at, n)
}

// Clause k of a station's text, from 0; none where it has no header.
fn find_clause(text: &[u8], k: usize) -> Clause
    ensures { result ≡ first (clause_of text.now k) }
{
    let header = header::read_header(text, 1);
    let Ok((n, _)) = header.sizes else {
        return Clause::Unreadable;
    };
    nth_clause(text, header.end, n, k)
}

// The place from one byte up to another.
fn place_between(station: u8, from: usize, to: usize) -> Place
    requires { from ≤ to }
    ensures { result ≡ between station from to }
{
    Place {
        station,
        start: from,
        length: to - from,
    }
}

// The place of a clause that has a row's two words; start 0 and length 0 where it has others.
fn place_held(station: u8, clause: Clause, row: Row) -> Place
    requires { Ordered clause }
    ensures { result ≡ place_held station clause row.positive row.negative }
{
    let Clause::Read(own, from, to) = clause else {
        return place_between(station, 0, 0);
    };
    if own.positive != row.positive {
        return place_between(station, 0, 0);
    }
    if own.negative != row.negative {
        return place_between(station, 0, 0);
    }
    place_between(station, from, to)
}

// The place of the clause of a station's row i, from 0, in its text.
fn find_place(station: u8, words: &[u32], text: &[u8], i: usize) -> Place
    ensures { result ≡ place_of station words.now text.now i }
{
    let clause = find_clause(text, i);
    let row = tables::row_at(words, i);
    place_held(station, clause, row)
}

// The place of the clause that row `number`, from 1, was read from; length 0 where the table's row no longer has the clause's two words.
pub fn clause_place(
    d: Dimensions,
    tables: Tables<'_>,
    left_text: &[u8],
    right_text: &[u8],
    number: u64,
) -> Result<Place, Refusal>
    ensures value { result ≡ placed d (lent_words tables) left_text.now right_text.now number }
    ensures result_value { placed_code result ∷ placed_numbers result
        ≡ said (outcome (excerpt_checks d (lent_words tables) left_text.now
        right_text.now number)) (place_numbers (clause_place d (lent_words tables) left_text.now
        right_text.now number)) }
{
    let checked = check_excerpt(d, tables, left_text, right_text, number);
    checked?;
    let left_rows = d.left as u64;
    if number <= left_rows {
        let i = (number - 1) as usize;
        return Ok(find_place(0, tables.left, left_text, i));
    }
    let i = (number - left_rows - 1) as usize;
    Ok(find_place(1, tables.right, right_text, i))
}

// The own bytes of the clause that row `number`, from 1, was read from, a part of the left or the right text: from its first literal
// through its 0. The part is empty where the table's row no longer has the clause's two words, and where `check_excerpt` refuses.
pub fn clause_bytes<'a>(
    d: Dimensions,
    tables: Tables<'_>,
    left_text: &'a [u8],
    right_text: &'a [u8],
    number: u64,
) -> &'a [u8]
    ensures { result.now ≡ clause_bytes d (lent_words tables) left_text.now right_text.now number }
{
    let asked = clause_place(d, tables, left_text, right_text, number);
    let Ok(place) = asked else {
        return &left_text[..0];
    };
    let start = place.start;
    let length = place.length;
    if place.station == 0 {
        return &left_text[start..start + length];
    }
    &right_text[start..start + length]
}
