// The exports of `host_indexed`, for C: each calls the function of that name there, and states its clauses.
ghost use Rattle.std.specs.Prelude.{◌≡◌, [], ◌∷◌};
ghost use Rattle.refusals.specs.Checks.{outcome};
ghost use Rattle.refusals.specs.Numbers.{code_of};
ghost use Rattle.tables.specs.Tables.{lent_tables};
ghost use Rattle.tables.specs.Acceptance.{table_checks};
ghost use Rattle.indexed.specs.Entries.{index_after, counted, counted_code, counted_numbers};
ghost use Rattle.indexed.specs.Continuing.{continued_code, continued_numbers};
ghost use Rattle.codes.specs.Codes.{host_dimensions};
ghost use Rattle.stored.specs.Words.{run_in};
ghost use Rattle.lent.specs.Lent.{numbers_or, stored_if};
ghost use Rattle.host_indexed.specs.Steps.{indexed_step_in, continue_in};

// The index of three tables; 1, 2, 4 or 3 where it is refused.
#[unsafe(no_mangle)]
pub extern "C" fn forkhemit_index(
    n: u64,
    left_rows: u64,
    right_rows: u64,
    public_rows: u64,
    left: &[u32],
    right: &[u32],
    public: &[u32],
    index: &mut [u64; 384],
) -> u8
    ensures value { result ≡ code_of (outcome
        (table_checks (host_dimensions n left_rows right_rows public_rows) (lent_tables left right public))) }
    ensures index_after { index.new ≡ index_after (host_dimensions n left_rows right_rows public_rows) (lent_tables left right public)
        index.old }
{
    host_indexed::forkhemit_index(
        n,
        left_rows,
        right_rows,
        public_rows,
        left,
        right,
        public,
        index,
    )
}

// How many rows are unsatisfied under the T and F of the run in the lent words; 1, 2, 4, 3, 12 or 13 where it is refused.
#[unsafe(no_mangle)]
pub extern "C" fn forkhemit_unsatisfied(
    n: u64,
    left_rows: u64,
    right_rows: u64,
    public_rows: u64,
    left: &[u32],
    right: &[u32],
    public: &[u32],
    run: &[u32; 101],
    number: &mut [u64; 1],
) -> u8
    ensures value { result ≡ counted_code (counted (host_dimensions n left_rows right_rows public_rows) (lent_tables left right public)
        (run_in run.now)) }
    ensures number_after { number.new ≡ numbers_or (counted_numbers (counted (host_dimensions n left_rows right_rows public_rows)
        (lent_tables left right public) (run_in run.now))) number.old }
{
    host_indexed::forkhemit_unsatisfied(
        n,
        left_rows,
        right_rows,
        public_rows,
        left,
        right,
        public,
        run,
        number,
    )
}

// One giant step of the run in the lent words, with its number of unsatisfied rows; 1, 2, 4, 3, 12 or 13 where it is refused: then the
// step's number is the one that was lent.
#[unsafe(no_mangle)]
pub extern "C" fn forkhemit_step_indexed(
    n: u64,
    left_rows: u64,
    right_rows: u64,
    public_rows: u64,
    left: &[u32],
    right: &[u32],
    public: &[u32],
    index: &[u64; 384],
    run: &mut [u32; 101],
    number: &mut [u64; 1],
) -> u8
    ensures value { result ≡ code_of (indexed_step_in (host_dimensions n left_rows right_rows public_rows) (lent_tables left right public)
        index.now run.old number.old).outcome }
    ensures run_after { run.new ≡ stored_if (indexed_step_in (host_dimensions n left_rows right_rows public_rows)
        (lent_tables left right public)
        index.now run.old number.old).outcome
        (indexed_step_in (host_dimensions n left_rows right_rows public_rows) (lent_tables left right public) index.now
        run.old number.old).run run.old }
    ensures number_after { number.new ≡ (indexed_step_in (host_dimensions n left_rows right_rows public_rows)
        (lent_tables left right public)
        index.now run.old number.old).number ∷ [] }
{
    host_indexed::forkhemit_step_indexed(
        n,
        left_rows,
        right_rows,
        public_rows,
        left,
        right,
        public,
        index,
        run,
        number,
    )
}

// Giant steps of the run in the lent words through the one that closes it, at most a given number, by the indexed run; the numbers are how
// many they were, and 1 if the run is closed then, else 0. 1, 2, 4, 3, 12 or 13 where it is refused, and then nothing is written.
#[unsafe(no_mangle)]
pub extern "C" fn forkhemit_continue(
    n: u64,
    left_rows: u64,
    right_rows: u64,
    public_rows: u64,
    left: &[u32],
    right: &[u32],
    public: &[u32],
    times: u64,
    run: &mut [u32; 101],
    continued: &mut [u64; 2],
) -> u8
    ensures value { result ≡ continued_code (continue_in (host_dimensions n left_rows right_rows public_rows)
        (lent_tables left right public) times
        run.old) }
    ensures run_after { run.new ≡ stored_if (continue_in (host_dimensions n left_rows right_rows public_rows)
        (lent_tables left right public)
        times run.old).outcome (continue_in (host_dimensions n left_rows right_rows public_rows)
        (lent_tables left right public) times run.old).run run.old }
    ensures continued_after { continued.new ≡ numbers_or
        (continued_numbers (continue_in (host_dimensions n left_rows right_rows public_rows)
        (lent_tables left right public) times run.old)) continued.old }
{
    host_indexed::forkhemit_continue(
        n,
        left_rows,
        right_rows,
        public_rows,
        left,
        right,
        public,
        times,
        run,
        continued,
    )
}
