// A late condition (document 02, Req 06): while a run is open, a station puts a row in the place of one of its own padding rows.
#![tactic(auto)]

ghost use Rattle.std.specs.Prelude.{◌≡◌, [], ◌∷◌, ◌&&◌, cond, ◌+◌, ◌-◌, ◌*◌, ◌<◌, leb, length};
ghost use Rattle.refusals.specs.Checks.{outcome};
ghost use Rattle.refusals.specs.Numbers.{code_of, said};
ghost use Rattle.tables.specs.Tables.{all_tables, lent_words};
ghost use Rattle.tables.specs.Rows.{row_at, padding};
ghost use Rattle.tables.specs.Acceptance.{low_row};
ghost use Rattle.late.specs.Replacement as Replacement;
ghost use Rattle.late.specs.Replacement.{late_checks, put_row, tables_after};

use dimensions::Dimensions;
use refusals::Refusal;
use state::Run;
use tables::Tables;
use words::Row;

// Who replaces which row by what: station 0 is the left one, 1 the right one; `replaced` is the old row's number, from 1 over all tables;
// `row` is the new row.
#[derive(Clone, Copy)]
pub struct Condition {
    pub station: u64,
    pub replaced: u64,
    pub row: Row,
}

// Whether the row of that number is one of the station's own.
fn owns(d: Dimensions, station: u64, number: u64) -> bool
    ensures { result ≡ Replacement.owns d station number }
{
    let left = d.left as u64;
    if station == 0 {
        return (0 < number) & (number <= left);
    }
    if station == 1 {
        return (left < number) & (number <= left + d.right as u64);
    }
    false
}

// Whether row i from 0 of a table's words is padding. Words past the end count as 0.
fn is_padding(words: &[u32], i: usize) -> bool
    ensures { result ≡ padding 32 (row_at words.now i) }
{
    let row = tables::row_at(words, i);
    row.positive & row.negative != 0
}

// Whether the row of that number is a padding row of the station.
fn replaceable(d: Dimensions, left: &[u32], right: &[u32], station: u64, number: u64) -> bool
    ensures { result ≡ Replacement.owns d station number && cond (leb number d.left) (padding 32 (row_at left.now (number - 1)))
        (padding 32 (row_at right.now (number - 1 - d.left))) }
{
    if !owns(d, station, number) {
        return false;
    }
    let left_rows = d.left as u64;
    if number <= left_rows {
        return is_padding(left, (number - 1) as usize);
    }
    is_padding(right, (number - 1 - left_rows) as usize)
}

// Whether neither word of the row has a bit at or above n.
fn low(row: Row, n: u32) -> bool
    ensures { result ≡ low_row n row }
{
    words::below(row.positive, n) & words::below(row.negative, n)
}

// Whether the row may be replaced: 1, 2, 4, 3, 12, 13, 15, 16, or 3 for the new row, if not.
fn check_condition(
    d: Dimensions,
    tables: Tables<'_>,
    run: Run,
    condition: Condition,
) -> Result<(), Refusal>
    ensures { result ≡ outcome (late_checks d (lent_words tables) run condition) }
{
    tables::accept(d, tables)?;
    state::check_state(d, run)?;
    if !replaceable(
        d,
        tables.left,
        tables.right,
        condition.station,
        condition.replaced,
    ) {
        return Err(Refusal::NotPadding);
    }
    if verdicts::closed(run) {
        return Err(Refusal::Closed);
    }
    if !low(condition.row, d.n as u32) {
        return Err(Refusal::RowBit);
    }
    Ok(())
}

// Puts the row in the place of row i from 0 of a table's words: two words change.
fn put(words: &mut [u32], i: usize, row: Row)
    requires { 2 * i + 1 < length words.old }
    ensures { words.new ≡ put_row words.old i row }
{
    words[2 * i] = row.positive;
    words[2 * i + 1] = row.negative;
}

// Puts a row in the place of a padding row of the station. Refused, by 1, 2, 4, 3, 12, 13, 15, 16, or 3 for the new row, it changes no
// word.
pub fn replace(
    d: Dimensions,
    left: &mut [u32],
    right: &mut [u32],
    public: &[u32],
    run: Run,
    condition: Condition,
) -> Result<(), Refusal>
    ensures value { result ≡ outcome (late_checks d (all_tables left.old right.old public.now) run condition) }
    ensures left_after { left.new ≡ (tables_after d (all_tables left.old right.old public.now) run condition).left }
    ensures right_after { right.new ≡ (tables_after d (all_tables left.old right.old public.now) run condition).right }
    ensures result_value { code_of result ∷ []
        ≡ said (outcome (late_checks d (all_tables left.old right.old public.now) run condition)) [] }
{
    check_condition(
        d,
        Tables {
            left,
            right,
            public,
        },
        run,
        condition,
    )?;
    let number = condition.replaced;
    let left_rows = d.left as u64;
    if number <= left_rows {
        put(left, (number - 1) as usize, condition.row);
        return Ok(());
    }
    put(right, (number - 1 - left_rows) as usize, condition.row);
    Ok(())
}
