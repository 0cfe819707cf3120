// For hosts in C and Rust: the step, the whole run and the run continued with the weighted choice. Each function is a thin call of a proved
// entry. A slice passes as a pointer and then a length, an array as a pointer. It returns 0 where the call is taken, else the refusal's
// number, and then all lent memory is as it was. A crate of its own, so that the indexed run's code is alone in its object file and is
// compiled as one loop.
#![tactic(auto)]

ghost use Rattle.std.specs.Prelude.{◌≡◌};
ghost use Rattle.refusals.specs.Numbers.{code_of};
ghost use Rattle.tables.specs.Tables.{lent_tables};
ghost use Rattle.solver.specs.Entries.{stepped_with, solved_with, solved_code, solved_numbers};
ghost use Rattle.indexed.specs.Continuing.{continued_with, continued_code, continued_numbers};
ghost use Rattle.weighted.specs.Weights.{weighted_rule};
ghost use Rattle.codes.specs.Codes.{host_dimensions};
ghost use Rattle.stored.specs.Words.{run_in};
ghost use Rattle.lent.specs.Lent.{numbers_or, stored_if};
ghost use Rattle.host_runs.specs.Runs.{step_stored};

use tables::Tables;

// One step of the run in the lent words with the weighted choice; 1, 2, 4, 3, 12 or 13 where it is refused, and then no word changes.
pub fn forkhemit_step_weighted(
    n: u64,
    left_rows: u64,
    right_rows: u64,
    public_rows: u64,
    left: &[u32],
    right: &[u32],
    public: &[u32],
    run: &mut [u32; 101],
) -> u8
    ensures value { result ≡ code_of (stepped_with weighted_rule (host_dimensions n left_rows right_rows public_rows)
        (lent_tables left right public)
        (run_in run.old)).outcome }
    ensures run_after { run.new ≡ step_stored (stepped_with weighted_rule (host_dimensions n left_rows right_rows public_rows)
        (lent_tables left right public) (run_in run.old)) run.old }
{
    let d = codes::dimensions(n, left_rows, right_rows, public_rows);
    let tables = Tables {
        left,
        right,
        public,
    };
    let mut next = stored::load(*run);
    let outcome = weighted::step_weighted(d, tables, &mut next);
    lent::store_if(outcome, next, run);
    codes::code(outcome)
}

// The answer of a fresh run under a budget with the weighted choice: count, verdict, model; 1, 2, 4 or 3 where it is refused.
pub fn forkhemit_solve_weighted(
    n: u64,
    left_rows: u64,
    right_rows: u64,
    public_rows: u64,
    left: &[u32],
    right: &[u32],
    public: &[u32],
    budget: u64,
    answer: &mut [u64; 3],
) -> u8
    ensures value { result ≡ solved_code (solved_with weighted_rule (host_dimensions n left_rows right_rows public_rows)
        (lent_tables left right public)
        budget) }
    ensures answer_after { answer.new ≡ numbers_or
        (solved_numbers (solved_with weighted_rule (host_dimensions n left_rows right_rows public_rows)
        (lent_tables left right public) budget)) answer.old }
{
    let d = codes::dimensions(n, left_rows, right_rows, public_rows);
    let tables = Tables {
        left,
        right,
        public,
    };
    host_solve::give(weighted::solve_weighted(d, tables, budget), answer)
}

// Weighted steps of the run in the lent words through the one that closes it, at most a given number; the numbers are how many they were,
// and 1 if the run is closed then, else 0. 1, 2, 4, 3, 12 or 13 where it is refused, and then nothing is written.
pub fn forkhemit_continue_weighted(
    n: u64,
    left_rows: u64,
    right_rows: u64,
    public_rows: u64,
    left: &[u32],
    right: &[u32],
    public: &[u32],
    times: u64,
    run: &mut [u32; 101],
    continued: &mut [u64; 2],
) -> u8
    ensures value { result ≡ continued_code (continued_with weighted_rule (host_dimensions n left_rows right_rows public_rows)
        (lent_tables left right public) times (run_in run.old)) }
    ensures run_after { run.new ≡ stored_if (continued_with weighted_rule (host_dimensions n left_rows right_rows public_rows)
        (lent_tables left right public) times (run_in run.old)).outcome
        (continued_with weighted_rule (host_dimensions n left_rows right_rows public_rows) (lent_tables left right public) times
        (run_in run.old)).run run.old }
    ensures continued_after { continued.new ≡ numbers_or (continued_numbers (continued_with weighted_rule
        (host_dimensions n left_rows right_rows public_rows) (lent_tables left right public) times (run_in run.old)))
        continued.old }
{
    let d = codes::dimensions(n, left_rows, right_rows, public_rows);
    let tables = Tables {
        left,
        right,
        public,
    };
    let mut held = stored::load(*run);
    let done = weighted::continue_weighted(d, tables, times, &mut held);
    host_indexed::give_continued(done, held, run, continued)
}
