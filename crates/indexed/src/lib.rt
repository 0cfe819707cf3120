// The giant step and the budgeted run with an index and a tally beside them (document 02, "Which rows does a variable touch"): the same
// states as the plain scan gives.
#![tactic(auto)]

mod tallied;

ghost use Rattle.std.specs.Prelude.{◌≡◌, true, [], ◌∷◌, ◌++◌, eqb, Ok};
ghost use Rattle.refusals.specs.Checks.{outcome};
ghost use Rattle.refusals.specs.Numbers.{said, code_of};
ghost use Rattle.words.specs.Sameness.{same};
ghost use Rattle.dimensions.specs.Sizes.{row_count};
ghost use Rattle.tables.specs.Tables.{lent_words, words_in};
ghost use Rattle.tables.specs.Acceptance.{table_checks};
ghost use Rattle.tables.specs.Rows.{rows_from, rows_of};
ghost use Rattle.state.specs.State.{state_of};
ghost use Rattle.state.specs.WellFormed.{well_formed, state_checks};
ghost use Rattle.solver.specs.Step.{always};
ghost use Rattle.solver.specs.Entries.{run_from, answer_of, answer_numbers, solved, solved_code, solved_numbers};
ghost use Rattle.occurrences.specs.Index.{index_of};
ghost use Rattle.tally.specs.Tallies.{unsatisfied_rows};
ghost use Rattle.indexed.specs.Entries.{index_after, counted, counted_code, counted_numbers, indexed_checks, number_after, stepped_indexed};
ghost use Rattle.indexed.specs.Entries.{said_or};
ghost use Rattle.indexed.specs.Continuing.{continued, ran_numbers, steps_taken, taken_outcome, taken_numbers};
ghost use Rattle.indexed.specs.Tallied.{Indexed, reached_by, kept_checks, stepped_over};

use dimensions::Dimensions;
use refusals::Refusal;
use solver::Answer;
use state::Run;
use tables::Tables;
use tallied::{Reached, TalliedRun};

// How many steps a run was continued by, and whether it is closed then.
#[derive(Clone, Copy)]
pub struct StepsTaken {
    pub steps: u64,
    pub closed: bool,
}

// ---- the index

// Makes the index of accepted tables, and gives the words of their rows.
fn make_index(d: Dimensions, tables: Tables<'_>, index: &mut [u64; 384]) -> [u32; 768]
    requires { outcome (table_checks d (words_in tables)) ≡ Ok tt }
    ensures d_value { rows_from result 0 (row_count d) ≡ rows_of d (lent_words tables) }
    ensures index_after { index.new ≡ index_of (rows_of d (lent_words tables)) }
{
    let words = occurrences::row_words(d, tables);
    occurrences::fill(&words, d.rows(), index);
    words
}

// Makes the index of the tables; 1, 2, 4 or 3 leave it as it was.
pub fn index(d: Dimensions, tables: Tables<'_>, index: &mut [u64; 384]) -> Result<(), Refusal>
    ensures value { result ≡ outcome (table_checks d (lent_words tables)) }
    ensures index_after { index.new ≡ index_after d (lent_words tables) index.old }
    ensures result_value { code_of result ∷ [] ≡ said (outcome (table_checks d (lent_words tables))) [] }
{
    tables::accept(d, tables)?;
    make_index(d, tables, index);
    Ok(())
}

// ---- the run

// The run after steps over accepted tables, through the one that closes it and at most a given number: their index is made once.
fn run_accepted(d: Dimensions, tables: Tables<'_>, times: u64, run: Run) -> Reached
    requires public_value { outcome (table_checks d (words_in tables)) ≡ Ok tt }
    requires run_value { well_formed run ≡ true }
    requires n_value { run.n ≡ d.n }
    ensures { result ≡ reached_by d.n (run_from d.n (always (rows_of d (lent_words tables))) times (state_of run)) }
{
    let mut index = [0u64; 384];
    let words = make_index(d, tables, &mut index);
    tallied::run_to_close(&words, d.rows(), &index, times, run)
}

// Takes the run through the step that closes it, at most a given number of steps; how many they were, and whether it is closed then. The
// run is as it was where the call is refused: 1, 2, 4, 3, 12, 13.
pub fn continue_indexed(
    d: Dimensions,
    tables: Tables<'_>,
    times: u64,
    run: &mut Run,
) -> Result<StepsTaken, Refusal>
    ensures value { result ≡ steps_taken (continued d (lent_words tables) times run.old) }
    ensures run_after { run.new ≡ (continued d (lent_words tables) times run.old).run }
    ensures result_value { code_of (taken_outcome result) ∷ taken_numbers result
        ≡ said (outcome (table_checks d (lent_words tables) ++ state_checks d run.old))
        (ran_numbers (run_from d.n (always (rows_of d (lent_words tables))) times (state_of run.old))) }
{
    solver::check_all(d, tables, *run)?;
    let reached = run_accepted(d, tables, times, *run);
    *run = reached.run;
    Ok(StepsTaken {
        steps: reached.steps,
        closed: verdicts::closed(reached.run),
    })
}

// The answer of a fresh run over accepted tables.
fn run_indexed(d: Dimensions, tables: Tables<'_>, budget: u64) -> Answer
    requires { outcome (table_checks d (words_in tables)) ≡ Ok tt }
    ensures { result ≡ answer_of d.n (always (rows_of d (lent_words tables))) budget }
{
    let reached = run_accepted(d, tables, budget, Run::fresh(d.n));
    Answer {
        count: reached.steps,
        verdict: verdicts::verdict_of(reached.run),
    }
}

// The answer of a fresh run that stops when it is closed or the budget is spent, as `solver::solve` gives it; 1, 2, 4 or 3 if the tables
// are not accepted.
pub fn solve_indexed(d: Dimensions, tables: Tables<'_>, budget: u64) -> Result<Answer, Refusal>
    ensures value { result ≡ solved d (lent_words tables) budget }
    ensures result_value { solved_code result ∷ solved_numbers result ≡ said (outcome (table_checks d (lent_words tables)))
        (answer_numbers (answer_of d.n (always (rows_of d (lent_words tables))) budget)) }
{
    tables::accept(d, tables)?;
    Ok(run_indexed(d, tables, budget))
}

// ---- the number of unsatisfied rows

// How many rows of accepted tables are unsatisfied under T and F.
fn count_unsatisfied(d: Dimensions, tables: Tables<'_>, t: u32, f: u32) -> u32
    requires { outcome (table_checks d (words_in tables)) ≡ Ok tt }
    ensures { result ≡ unsatisfied_rows d.n (rows_of d (lent_words tables)) t f }
{
    let mut index = [0u64; 384];
    let words = make_index(d, tables, &mut index);
    let tally = tally::survey(&words, &index, d.rows(), t, f);
    tally.number
}

// How many rows are unsatisfied under the run's T and F, whatever its standing; 1, 2, 4, 3, 12 or 13 if the call is refused.
pub fn unsatisfied(d: Dimensions, tables: Tables<'_>, run: Run) -> Result<u32, Refusal>
    ensures value { result ≡ counted d (lent_words tables) run }
    ensures result_value { counted_code result ∷ counted_numbers result
        ≡ said (outcome (table_checks d (lent_words tables) ++ state_checks d run))
        (unsatisfied_rows d.n (rows_of d (lent_words tables)) run.t run.f ∷ []) }
{
    tables::accept(d, tables)?;
    state::check_state(d, run)?;
    Ok(count_unsatisfied(d, tables, run.t, run.f))
}

// ---- index, run and number together

// Whether run, index and number go together with rows of which `sets` are the sets and `unsatisfied` is the number under the run's T and F:
// 12 for each of the three, then 13.
fn check_kept(
    n: u8,
    sets: &[u64; 384],
    unsatisfied: u32,
    index: &[u64; 384],
    run: Run,
    number: u64,
) -> Result<(), Refusal>
    ensures { result ≡ outcome (kept_checks n run (same index.now sets.now) (eqb number unsatisfied)) }
{
    if !state::well_formed(run) {
        return Err(Refusal::State);
    }
    if !occurrences::same(index, sets) {
        return Err(Refusal::State);
    }
    if number != unsatisfied as u64 {
        return Err(Refusal::State);
    }
    if run.n != n {
        return Err(Refusal::OtherVariables);
    }
    Ok(())
}

// The same over accepted tables.
fn check_accepted(
    d: Dimensions,
    tables: Tables<'_>,
    index: &[u64; 384],
    run: Run,
    number: u64,
) -> Result<(), Refusal>
    requires { outcome (table_checks d (words_in tables)) ≡ Ok tt }
    ensures { result ≡ outcome (indexed_checks d.n (rows_of d (lent_words tables)) index.now run number) }
{
    let mut sets = [0u64; 384];
    let words = make_index(d, tables, &mut sets);
    let tally = tally::survey(&words, &sets, d.rows(), run.t, run.f);
    check_kept(d.n, &sets, tally.number, index, run, number)
}

// Whether tables, index, run and number go together: 1, 2, 4, 3, 12 or 13 if not.
pub fn check_indexed(
    d: Dimensions,
    tables: Tables<'_>,
    index: &[u64; 384],
    run: Run,
    number: u64,
) -> Result<(), Refusal>
    ensures value { result ≡ outcome (table_checks d (lent_words tables)
        ++ indexed_checks d.n (rows_of d (lent_words tables))
        index.now run number) }
    ensures result_value { code_of result ∷ [] ≡ said (outcome (table_checks d (lent_words tables) ++ indexed_checks d.n
        (rows_of d (lent_words tables)) index.now run number)) [] }
{
    tables::accept(d, tables)?;
    check_accepted(d, tables, index, run, number)
}

// ---- the step

// The step over rows whose index is `sets`, with the index and the number that were handed over: by that index, once it is judged equal.
fn step_rows(
    n: u8,
    words: &[u32; 768],
    rows: usize,
    sets: &[u64; 384],
    index: &[u64; 384],
    run: &mut Run,
    number: &mut u64,
) -> Result<(), Refusal>
    requires { Indexed n words.now rows sets.now }
    ensures value { result ≡ (stepped_over n (rows_from words.now 0 rows) index.now run.old number.old).outcome }
    ensures run_after { run.new ≡ (stepped_over n (rows_from words.now 0 rows) index.now run.old number.old).run }
    ensures number_after { number.new ≡ (stepped_over n (rows_from words.now 0 rows) index.now run.old number.old).number }
{
    let tally = tally::survey(words, sets, rows, run.t, run.f);
    check_kept(n, sets, tally.number, index, *run, *number)?;
    let next = tallied::advance(words, rows, index, TalliedRun { run: *run, tally });
    *run = next.run;
    *number = next.tally.number as u64;
    Ok(())
}

// The step over accepted tables.
fn step_accepted(
    d: Dimensions,
    tables: Tables<'_>,
    index: &[u64; 384],
    run: &mut Run,
    number: &mut u64,
) -> Result<(), Refusal>
    requires { outcome (table_checks d (words_in tables)) ≡ Ok tt }
    ensures value { result ≡ (stepped_over d.n (rows_of d (lent_words tables)) index.now run.old number.old).outcome }
    ensures run_after { run.new ≡ (stepped_over d.n (rows_of d (lent_words tables)) index.now run.old number.old).run }
    ensures number_after { number.new ≡ (stepped_over d.n (rows_of d (lent_words tables)) index.now run.old number.old).number }
{
    let mut sets = [0u64; 384];
    let words = make_index(d, tables, &mut sets);
    step_rows(d.n, &words, d.rows(), &sets, index, run, number)
}

// One giant step of the run, with its number of unsatisfied rows; both stay as they were where the call is refused: 1, 2, 4, 3, 12, 13.
pub fn step_indexed(
    d: Dimensions,
    tables: Tables<'_>,
    index: &[u64; 384],
    run: &mut Run,
    number: &mut u64,
) -> Result<(), Refusal>
    ensures value { result ≡ (stepped_indexed d (lent_words tables) index.now run.old number.old).outcome }
    ensures run_after { run.new ≡ (stepped_indexed d (lent_words tables) index.now run.old number.old).run }
    ensures number_after { number.new ≡ (stepped_indexed d (lent_words tables) index.now run.old number.old).number }
    ensures result_value { code_of result ∷ (number.new ∷ [])
        ≡ said_or (outcome (table_checks d (lent_words tables) ++ indexed_checks d.n
        (rows_of d (lent_words tables)) index.now run.old number.old))
        (number_after d.n (rows_of d (lent_words tables)) run.old) number.old }
{
    tables::accept(d, tables)?;
    step_accepted(d, tables, index, run, number)
}
