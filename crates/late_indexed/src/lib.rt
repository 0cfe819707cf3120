// A late condition (document 02, Req 06) with an index and a number of unsatisfied rows beside the run: both are brought up to date from
// the old and the new row alone.
#![tactic(auto)]

ghost use Rattle.std.specs.Prelude.{◌≡◌, [], ◌∷◌, ◌+◌, ◌≤◌};
ghost use Rattle.refusals.specs.Checks.{outcome};
ghost use Rattle.refusals.specs.Numbers.{code_of, said};
ghost use Rattle.words.specs.Booleans.{digit};
ghost use Rattle.tables.specs.Tables.{all_tables};
ghost use Rattle.tally.specs.Tallies.{unmet};
ghost use Rattle.late_indexed.specs.OldRow.{old_row};
ghost use Rattle.late_indexed.specs.Replacement.{replace_checks, tables_then, index_then, replaced_indexed};

use dimensions::Dimensions;
use late::Condition;
use refusals::Refusal;
use state::Run;
use tables::Tables;
use words::Row;

// ---- the old row

// The row of a number from 1 in the left table or in the right one; an empty one for any other number.
fn old_row(d: Dimensions, left: &[u32], right: &[u32], number: u64) -> Row
    ensures { result ≡ old_row d left.now right.now number }
{
    let left_rows = d.left as u64;
    let right_rows = d.right as u64;
    if (0 < number) & (number <= left_rows) {
        return tables::row_at(left, (number - 1) as usize);
    }
    if (left_rows < number) & (number <= left_rows + right_rows) {
        return tables::row_at(right, (number - 1 - left_rows) as usize);
    }
    Row {
        positive: 0,
        negative: 0,
    }
}

// ---- index and number

// The number with one row more: one more exactly if the row is unsatisfied under T and F.
fn count_row(number: u64, row: Row, t: u32, f: u32) -> u64
    requires { number ≤ 384 }
    ensures { result ≡ number + digit (unmet 32 t f row) }
{
    let judged = tables::judge(row, t, f);
    if judged.satisfied {
        return number;
    }
    number + 1
}

// Puts a row in the place of a padding row of the station, and brings index and number up to date. Padding is satisfied, so the new row
// alone can raise the number. Refused, by 1, 2, 4, 3, 12, 13, 15, 16, or 3 for the new row, it changes nothing.
pub fn replace_indexed(
    d: Dimensions,
    left: &mut [u32],
    right: &mut [u32],
    public: &[u32],
    index: &mut [u64; 384],
    run: Run,
    number: &mut u64,
    condition: Condition,
) -> Result<(), Refusal>
    ensures value { result ≡ (replaced_indexed d (all_tables left.old right.old public.now) index.old run number.old condition).outcome }
    ensures left_after { left.new
        ≡ (tables_then d (all_tables left.old right.old public.now) index.old run number.old condition).left }
    ensures right_after { right.new
        ≡ (tables_then d (all_tables left.old right.old public.now) index.old run number.old condition).right }
    ensures index_after { index.new ≡ index_then d (all_tables left.old right.old public.now) index.old run number.old condition }
    ensures number_after { number.new
        ≡ (replaced_indexed d (all_tables left.old right.old public.now) index.old run number.old condition).number }
    ensures result_value { code_of result ∷ []
        ≡ said (outcome (replace_checks d (all_tables left.old right.old public.now) index.old run number.old
        condition)) [] }
{
    let tables = Tables {
        left,
        right,
        public,
    };
    indexed::check_indexed(d, tables, index, run, *number)?;
    let old = old_row(d, left, right, condition.replaced);
    late::replace(d, left, right, public, run, condition)?;
    occurrences::replace_row(index, (condition.replaced - 1) as usize, old, condition.row);
    *number = count_row(*number, condition.row, run.t, run.f);
    Ok(())
}
