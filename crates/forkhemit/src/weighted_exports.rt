// The exports of `host_weighted`, for C: each calls the function of that name there, and states its clauses.
ghost use Rattle.std.specs.Prelude.{◌≡◌};
ghost use Rattle.refusals.specs.Numbers.{code_of};
ghost use Rattle.tables.specs.Tables.{lent_tables};
ghost use Rattle.solver.specs.Entries.{stepped_with, solved_with, solved_code, solved_numbers};
ghost use Rattle.indexed.specs.Continuing.{continued_with, continued_code, continued_numbers};
ghost use Rattle.weighted.specs.Weights.{weighted_rule};
ghost use Rattle.codes.specs.Codes.{host_dimensions};
ghost use Rattle.stored.specs.Words.{run_in};
ghost use Rattle.lent.specs.Lent.{numbers_or, stored_if};
ghost use Rattle.host_runs.specs.Runs.{step_stored};

// One step of the run in the lent words with the weighted choice; 1, 2, 4, 3, 12 or 13 where it is refused, and then no word changes.
#[unsafe(no_mangle)]
pub extern "C" fn forkhemit_step_weighted(
    n: u64,
    left_rows: u64,
    right_rows: u64,
    public_rows: u64,
    left: &[u32],
    right: &[u32],
    public: &[u32],
    run: &mut [u32; 101],
) -> u8
    ensures value { result ≡ code_of (stepped_with weighted_rule (host_dimensions n left_rows right_rows public_rows)
        (lent_tables left right public)
        (run_in run.old)).outcome }
    ensures run_after { run.new ≡ step_stored (stepped_with weighted_rule (host_dimensions n left_rows right_rows public_rows)
        (lent_tables left right public) (run_in run.old)) run.old }
{
    host_weighted::forkhemit_step_weighted(
        n,
        left_rows,
        right_rows,
        public_rows,
        left,
        right,
        public,
        run,
    )
}

// The answer of a fresh run under a budget with the weighted choice: count, verdict, model; 1, 2, 4 or 3 where it is refused.
#[unsafe(no_mangle)]
pub extern "C" fn forkhemit_solve_weighted(
    n: u64,
    left_rows: u64,
    right_rows: u64,
    public_rows: u64,
    left: &[u32],
    right: &[u32],
    public: &[u32],
    budget: u64,
    answer: &mut [u64; 3],
) -> u8
    ensures value { result ≡ solved_code (solved_with weighted_rule (host_dimensions n left_rows right_rows public_rows)
        (lent_tables left right public)
        budget) }
    ensures answer_after { answer.new ≡ numbers_or
        (solved_numbers (solved_with weighted_rule (host_dimensions n left_rows right_rows public_rows)
        (lent_tables left right public) budget)) answer.old }
{
    host_weighted::forkhemit_solve_weighted(
        n,
        left_rows,
        right_rows,
        public_rows,
        left,
        right,
        public,
        budget,
        answer,
    )
}

// Weighted steps of the run in the lent words through the one that closes it, at most a given number; the numbers are how many they were,
// and 1 if the run is closed then, else 0. 1, 2, 4, 3, 12 or 13 where it is refused, and then nothing is written.
#[unsafe(no_mangle)]
pub extern "C" fn forkhemit_continue_weighted(
    n: u64,
    left_rows: u64,
    right_rows: u64,
    public_rows: u64,
    left: &[u32],
    right: &[u32],
    public: &[u32],
    times: u64,
    run: &mut [u32; 101],
    continued: &mut [u64; 2],
) -> u8
    ensures value { result ≡ continued_code (continued_with weighted_rule (host_dimensions n left_rows right_rows public_rows)
        (lent_tables left right public) times (run_in run.old)) }
    ensures run_after { run.new ≡ stored_if (continued_with weighted_rule (host_dimensions n left_rows right_rows public_rows)
        (lent_tables left right public) times (run_in run.old)).outcome
        (continued_with weighted_rule (host_dimensions n left_rows right_rows public_rows) (lent_tables left right public) times
        (run_in run.old)).run run.old }
    ensures continued_after { continued.new ≡ numbers_or (continued_numbers (continued_with weighted_rule
        (host_dimensions n left_rows right_rows public_rows) (lent_tables left right public) times (run_in run.old)))
        continued.old }
{
    host_weighted::forkhemit_continue_weighted(
        n,
        left_rows,
        right_rows,
        public_rows,
        left,
        right,
        public,
        times,
        run,
        continued,
    )
}
