// The exports of `host_runs`, for C: each calls the function of that name there, and states its clauses.
ghost use Rattle.std.specs.Prelude.{◌≡◌, length};
ghost use Rattle.refusals.specs.Checks.{outcome};
ghost use Rattle.tables.specs.Tables.{lent_tables};
ghost use Rattle.tables.specs.Acceptance.{table_checks};
ghost use Rattle.verdicts.specs.Verdicts.{model_of, model_code, model_numbers};
ghost use Rattle.state.specs.State.{fresh, run_of};
ghost use Rattle.stored.specs.Words.{run_in};
ghost use Rattle.refusals.specs.Numbers.{code_of};
ghost use Rattle.lent.specs.Lent.{numbers_or, stored_if};
ghost use Rattle.codes.specs.Codes.{as_byte, host_dimensions, variable_checks};
ghost use Rattle.free_counts.specs.Counts.{count_checks, counts_after};
ghost use Rattle.host_runs.specs.Runs.{step_in, step_stored};
ghost use Rattle.host_runs.specs.Rows.{judged_row, judged_numbers};

// Whether three tables are accepted: 1, 2, 4 or 3 if not.
#[unsafe(no_mangle)]
pub extern "C" fn forkhemit_accept(
    n: u64,
    left_rows: u64,
    right_rows: u64,
    public_rows: u64,
    left: &[u32],
    right: &[u32],
    public: &[u32],
) -> u8
    ensures { result ≡ code_of (outcome (table_checks (host_dimensions n left_rows right_rows public_rows)
        (lent_tables left right public))) }
{
    host_runs::forkhemit_accept(n, left_rows, right_rows, public_rows, left, right, public)
}

// A row of two words judged against T and F: whether it is satisfied, how many of its literals are free, its free variables as a word, the
// variable to look at from 1, or 0.
#[unsafe(no_mangle)]
pub extern "C" fn forkhemit_judge(
    positive: u32,
    negative: u32,
    t: u32,
    f: u32,
    judged: &mut [u64; 4],
) -> u8
    ensures value { result ≡ 0 }
    ensures judged_after { judged.new ≡ judged_numbers (judged_row positive negative t f) }
{
    host_runs::forkhemit_judge(positive, negative, t, f, judged)
}

// How many literals of each row are free under the run in the lent words, a byte a row; 1, 2, 4, 3, 10, 12 or 13 where it is refused, and
// then no byte changes.
#[unsafe(no_mangle)]
pub extern "C" fn forkhemit_count_free(
    n: u64,
    left_rows: u64,
    right_rows: u64,
    public_rows: u64,
    left: &[u32],
    right: &[u32],
    public: &[u32],
    run: &[u32; 101],
    counts: &mut [u8],
) -> u8
    ensures value { result ≡ code_of (outcome
        (count_checks (host_dimensions n left_rows right_rows public_rows) (lent_tables left right public)
        (run_in run.now) (length counts.old))) }
    ensures counts_after { counts.new ≡ counts_after (host_dimensions n left_rows right_rows public_rows) (lent_tables left right public)
        (run_in run.now) counts.old }
{
    host_runs::forkhemit_count_free(
        n,
        left_rows,
        right_rows,
        public_rows,
        left,
        right,
        public,
        run,
        counts,
    )
}

// The fresh run of n variables; 1 where it is refused, and then no word changes.
#[unsafe(no_mangle)]
pub extern "C" fn forkhemit_fresh(n: u64, run: &mut [u32; 101]) -> u8
    ensures value { result ≡ code_of (outcome (variable_checks (as_byte n))) }
    ensures run_after { run.new ≡ stored_if (outcome (variable_checks (as_byte n))) (run_of (as_byte n) fresh) run.old }
{
    host_runs::forkhemit_fresh(n, run)
}

// One giant step of the run in the lent words; 1, 2, 4, 3, 12 or 13 where it is refused, and then no word changes.
#[unsafe(no_mangle)]
pub extern "C" fn forkhemit_step(
    n: u64,
    left_rows: u64,
    right_rows: u64,
    public_rows: u64,
    left: &[u32],
    right: &[u32],
    public: &[u32],
    run: &mut [u32; 101],
) -> u8
    ensures value { result ≡ code_of (step_in (host_dimensions n left_rows right_rows public_rows) (lent_tables left right public) run.old
        ).outcome }
    ensures run_after { run.new ≡ step_stored (step_in (host_dimensions n left_rows right_rows public_rows) (lent_tables left right public)
        run.old) run.old }
{
    host_runs::forkhemit_step(
        n,
        left_rows,
        right_rows,
        public_rows,
        left,
        right,
        public,
        run,
    )
}

// The model of a satisfied run, the variables that are true, as a word; 12 or 14 where it is refused, and then no number is written.
#[unsafe(no_mangle)]
pub extern "C" fn forkhemit_model(run: &[u32; 101], model: &mut [u64; 1]) -> u8
    ensures value { result ≡ model_code (model_of (run_in run.now)) }
    ensures model_after { model.new ≡ numbers_or (model_numbers (model_of (run_in run.now))) model.old }
{
    host_runs::forkhemit_model(run, model)
}
