// For hosts in C and Rust: whether tables are accepted, the judging of rows, the fresh run, the giant step in place, and the model. Each
// function is a thin call of a proved entry. A slice passes as a pointer and then a length, an array as a pointer. It returns 0 where the
// call is taken, else the refusal's number, and then it writes nothing.
#![tactic(auto)]

ghost use Rattle.std.specs.Prelude.{◌≡◌, length};
ghost use Rattle.refusals.specs.Checks.{outcome};
ghost use Rattle.tables.specs.Tables.{lent_tables};
ghost use Rattle.tables.specs.Rows.{look_number};
ghost use Rattle.tables.specs.Acceptance.{table_checks};
ghost use Rattle.verdicts.specs.Verdicts.{model_of, model_code, model_numbers};
ghost use Rattle.state.specs.State.{fresh, run_of};
ghost use Rattle.stored.specs.Words.{run_in};
ghost use Rattle.refusals.specs.Numbers.{code_of};
ghost use Rattle.lent.specs.Lent.{numbers_or, stored_if};
ghost use Rattle.codes.specs.Codes.{as_byte, host_dimensions, variable_checks};
ghost use Rattle.free_counts.specs.Counts.{count_checks, counts_after};
ghost use Rattle.host_runs.specs.Runs.{step_in, step_stored};
ghost use Rattle.host_runs.specs.Rows.{judged_row, judged_numbers};

use state::Run;
use tables::Tables;
use words::Row;

// Whether three tables are accepted: 1, 2, 4 or 3 if not.
pub fn forkhemit_accept(
    n: u64,
    left_rows: u64,
    right_rows: u64,
    public_rows: u64,
    left: &[u32],
    right: &[u32],
    public: &[u32],
) -> u8
    ensures { result ≡ code_of (outcome (table_checks (host_dimensions n left_rows right_rows public_rows)
        (lent_tables left right public))) }
{
    let d = codes::dimensions(n, left_rows, right_rows, public_rows);
    let tables = Tables {
        left,
        right,
        public,
    };
    codes::code(tables::accept(d, tables))
}

// The variable to look at as a number: from 1, or 0 where there is none.
fn look_number(look: Option<u8>) -> u64
    ensures { result ≡ look_number look }
{
    match look {
        Some(variable) => variable as u64 + 1,
        None => 0,
    }
}

// A row of two words judged against T and F: whether it is satisfied, how many of its literals are free, its free variables as a word, the
// variable to look at from 1, or 0.
pub fn forkhemit_judge(positive: u32, negative: u32, t: u32, f: u32, judged: &mut [u64; 4]) -> u8
    ensures value { result ≡ 0 }
    ensures judged_after { judged.new ≡ judged_numbers (judged_row positive negative t f) }
{
    let row = tables::judge(Row { positive, negative }, t, f);
    let look = row.look;
    *judged = [
        row.satisfied as u64,
        row.literals as u64,
        row.variables as u64,
        look_number(look),
    ];
    0
}

// How many literals of each row are free under the run in the lent words, a byte a row; 1, 2, 4, 3, 10, 12 or 13 where it is refused, and
// then no byte changes.
pub fn forkhemit_count_free(
    n: u64,
    left_rows: u64,
    right_rows: u64,
    public_rows: u64,
    left: &[u32],
    right: &[u32],
    public: &[u32],
    run: &[u32; 101],
    counts: &mut [u8],
) -> u8
    ensures value { result ≡ code_of (outcome
        (count_checks (host_dimensions n left_rows right_rows public_rows) (lent_tables left right public)
        (run_in run.now) (length counts.old))) }
    ensures counts_after { counts.new ≡ counts_after (host_dimensions n left_rows right_rows public_rows) (lent_tables left right public)
        (run_in run.now) counts.old }
{
    let d = codes::dimensions(n, left_rows, right_rows, public_rows);
    let tables = Tables {
        left,
        right,
        public,
    };
    let run = stored::load(*run);
    codes::code(free_counts::count_free(d, tables, run, counts))
}

// The fresh run of n variables; 1 where it is refused, and then no word changes.
pub fn forkhemit_fresh(n: u64, run: &mut [u32; 101]) -> u8
    ensures value { result ≡ code_of (outcome (variable_checks (as_byte n))) }
    ensures run_after { run.new ≡ stored_if (outcome (variable_checks (as_byte n))) (run_of (as_byte n) fresh) run.old }
{
    let k = codes::byte(n);
    let outcome = codes::check_variables(k);
    lent::store_if(outcome, Run::fresh(k), run);
    codes::code(outcome)
}

// One giant step of the run in the lent words; 1, 2, 4, 3, 12 or 13 where it is refused, and then no word changes.
pub fn forkhemit_step(
    n: u64,
    left_rows: u64,
    right_rows: u64,
    public_rows: u64,
    left: &[u32],
    right: &[u32],
    public: &[u32],
    run: &mut [u32; 101],
) -> u8
    ensures value { result ≡ code_of (step_in (host_dimensions n left_rows right_rows public_rows) (lent_tables left right public) run.old
        ).outcome }
    ensures run_after { run.new ≡ step_stored (step_in (host_dimensions n left_rows right_rows public_rows) (lent_tables left right public)
        run.old) run.old }
{
    let d = codes::dimensions(n, left_rows, right_rows, public_rows);
    let tables = Tables {
        left,
        right,
        public,
    };
    let mut next = stored::load(*run);
    let outcome = solver::step(d, tables, &mut next);
    lent::store_if(outcome, next, run);
    codes::code(outcome)
}

// The model of a satisfied run, the variables that are true, as a word; 12 or 14 where it is refused, and then no number is written.
pub fn forkhemit_model(run: &[u32; 101], model: &mut [u64; 1]) -> u8
    ensures value { result ≡ model_code (model_of (run_in run.now)) }
    ensures model_after { model.new ≡ numbers_or (model_numbers (model_of (run_in run.now))) model.old }
{
    match verdicts::model(stored::load(*run)) {
        Ok(word) => {
            *model = [word as u64];
            return 0;
        }
        Err(refusal) => return u8::from(refusal),
    }
}
