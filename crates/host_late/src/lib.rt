// For hosts in C and Rust: a late condition, that is a row in the place of a station's own padding row while the run is open, without and
// with an index. Each function is a thin call of a proved entry. A slice passes as a pointer and then a length, an array as a pointer. It
// returns 0 where the call is taken, else the refusal's number, and then all lent memory is as it was.
#![tactic(auto)]

ghost use Rattle.std.specs.Prelude.{◌≡◌, [], ◌∷◌, get_or};
ghost use Rattle.refusals.specs.Checks.{outcome};
ghost use Rattle.refusals.specs.Numbers.{code_of};
ghost use Rattle.tables.specs.Tables.{all_tables};
ghost use Rattle.late.specs.Replacement.{late_checks, tables_after};
ghost use Rattle.late_indexed.specs.Replacement.{replace_checks, tables_then, index_then, number_then};
ghost use Rattle.codes.specs.Codes.{host_dimensions};
ghost use Rattle.stored.specs.Words.{run_in};
ghost use Rattle.host_late.specs.Conditions.{condition_of};

use late::Condition;
use words::Row;

// The late condition of four numbers.
fn condition_of(station: u64, row: u64, positive: u32, negative: u32) -> Condition
    ensures { result ≡ condition_of station row positive negative }
{
    let new = Row {
        positive: positive,
        negative: negative,
    };
    Condition {
        station: station,
        replaced: row,
        row: new,
    }
}

// Puts a row of these two words in the place of the station's padding row of that number, while the run in the lent words is open; 1, 2, 4,
// 3, 12, 13, 15, 16, or 3 for the new row, where it is refused.
pub fn forkhemit_replace(
    n: u64,
    left_rows: u64,
    right_rows: u64,
    public_rows: u64,
    left: &mut [u32],
    right: &mut [u32],
    public: &[u32],
    run: &[u32; 101],
    station: u64,
    row: u64,
    positive: u32,
    negative: u32,
) -> u8
    ensures value { result ≡ code_of (outcome
        (late_checks (host_dimensions n left_rows right_rows public_rows) (all_tables left.old right.old public.now)
        (run_in run.now) (condition_of station row positive negative))) }
    ensures left_after { left.new ≡ (tables_after (host_dimensions n left_rows right_rows public_rows)
        (all_tables left.old right.old public.now)
        (run_in run.now) (condition_of station row positive negative)).left }
    ensures right_after { right.new ≡ (tables_after (host_dimensions n left_rows right_rows public_rows)
        (all_tables left.old right.old public.now)
        (run_in run.now) (condition_of station row positive negative)).right }
{
    let d = codes::dimensions(n, left_rows, right_rows, public_rows);
    let held = stored::load(*run);
    let wanted = condition_of(station, row, positive, negative);
    codes::code(late::replace(d, left, right, public, held, wanted))
}

// The same with a lent index and a lent number of unsatisfied rows, which are then those of the new tables; 12 too where they were not
// right. Where it is refused, the number is the one that was lent.
pub fn forkhemit_replace_indexed(
    n: u64,
    left_rows: u64,
    right_rows: u64,
    public_rows: u64,
    left: &mut [u32],
    right: &mut [u32],
    public: &[u32],
    run: &[u32; 101],
    station: u64,
    row: u64,
    positive: u32,
    negative: u32,
    index: &mut [u64; 384],
    number: &mut [u64; 1],
) -> u8
    ensures value { result ≡ code_of (outcome
        (replace_checks (host_dimensions n left_rows right_rows public_rows) (all_tables left.old right.old public.now)
        index.old (run_in run.now) (get_or number.old 0 0)
        (condition_of station row positive negative))) }
    ensures left_after { left.new ≡ (tables_then (host_dimensions n left_rows right_rows public_rows)
        (all_tables left.old right.old public.now)
        index.old (run_in run.now) (get_or number.old 0 0)
        (condition_of station row positive negative)).left }
    ensures right_after { right.new ≡ (tables_then (host_dimensions n left_rows right_rows public_rows)
        (all_tables left.old right.old public.now)
        index.old (run_in run.now) (get_or number.old 0 0)
        (condition_of station row positive negative)).right }
    ensures index_after { index.new ≡ index_then (host_dimensions n left_rows right_rows public_rows)
        (all_tables left.old right.old public.now)
        index.old (run_in run.now) (get_or number.old 0 0)
        (condition_of station row positive negative) }
    ensures number_after { number.new ≡ number_then (host_dimensions n left_rows right_rows public_rows)
        (all_tables left.old right.old public.now)
        index.old (run_in run.now) (get_or number.old 0 0)
        (condition_of station row positive negative) ∷ [] }
{
    let d = codes::dimensions(n, left_rows, right_rows, public_rows);
    let held = stored::load(*run);
    let wanted = condition_of(station, row, positive, negative);
    codes::code(late_indexed::replace_indexed(
        d,
        left,
        right,
        public,
        index,
        held,
        &mut number[0],
        wanted,
    ))
}
