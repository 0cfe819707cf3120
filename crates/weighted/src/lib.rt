// The giant step and the budgeted run with the two-sided Jeroslow-Wang choice in the place of rule 4's (document 02, "Weighing the short
// rows"): other steps, the same verdicts.
#![tactic(auto)]

mod tallied;
mod weights;

ghost use Rattle.std.specs.Prelude.{◌≡◌, true, [], ◌∷◌, ◌++◌, Ok};
ghost use Rattle.refusals.specs.Checks.{outcome};
ghost use Rattle.refusals.specs.Numbers.{said, code_of};
ghost use Rattle.tables.specs.Tables.{lent_words, words_in};
ghost use Rattle.tables.specs.Acceptance.{table_checks};
ghost use Rattle.tables.specs.Rows.{rows_of};
ghost use Rattle.state.specs.State.{state_of, run_of};
ghost use Rattle.state.specs.WellFormed.{well_formed, state_checks};
ghost use Rattle.solver.specs.Step.{step_with, always};
ghost use Rattle.solver.specs.Entries.{run_with, answer_with, answer_numbers, stepped_with, solved_with, solved_code, solved_numbers};
ghost use Rattle.indexed.specs.Continuing.{continued_by, continued_with, ran_numbers, steps_taken, taken_outcome, taken_numbers};
ghost use Rattle.weighted.specs.Weights.{weighted_rule};

use dimensions::Dimensions;
use indexed::StepsTaken;
use refusals::Refusal;
use solver::Answer;
use state::{Run, Standing};
use tables::Tables;

// One step of a well-formed run over accepted tables of its n; a closed run stays as it is.
fn advance(d: Dimensions, tables: Tables<'_>, run: Run) -> Run
    requires public_value { outcome (table_checks d (words_in tables)) ≡ Ok tt }
    requires run_value { well_formed run ≡ true }
    requires n_value { run.n ≡ d.n }
    ensures { result ≡ run_of d.n (step_with weighted_rule d.n (rows_of d (lent_words tables)) (state_of run)) }
{
    let standing = run.standing;
    match standing {
        Standing::Open => {}
        Standing::Satisfied => return run,
        Standing::Refuted => return run,
    }
    let rule = weights::find_rule(tables.rows(d), run.t, run.f);
    rules::follow(run, rule)
}

// One step of the run with the weighted choice; a refusal leaves the run as it was: 1, 2, 4, 3, 12, 13.
pub fn step_weighted(d: Dimensions, tables: Tables<'_>, run: &mut Run) -> Result<(), Refusal>
    ensures value { result ≡ (stepped_with weighted_rule d (lent_words tables) run.old).outcome }
    ensures run_after { run.new ≡ (stepped_with weighted_rule d (lent_words tables) run.old).run }
    ensures result_value { code_of result ∷ []
        ≡ said (outcome (table_checks d (lent_words tables) ++ state_checks d run.old)) [] }
{
    solver::check_all(d, tables, *run)?;
    *run = advance(d, tables, *run);
    Ok(())
}

// Takes the run through weighted steps over accepted tables, to the one that closes it and at most a given number: the index is made once.
fn run_accepted(d: Dimensions, tables: Tables<'_>, times: u64, run: &mut Run) -> StepsTaken
    requires public_value { outcome (table_checks d (words_in tables)) ≡ Ok tt }
    requires run_value { well_formed run.old ≡ true }
    requires n_value { run.old.n ≡ d.n }
    ensures value { Ok result ≡ steps_taken (continued_by d.n
        (run_with weighted_rule d.n (always (rows_of d (lent_words tables))) times (state_of run.old))) }
    ensures run_after { run.new ≡ (continued_by d.n
        (run_with weighted_rule d.n (always (rows_of d (lent_words tables))) times (state_of run.old))).run }
{
    let words = occurrences::row_words(d, tables);
    let mut index = [0u64; 384];
    occurrences::fill(&words, d.rows(), &mut index);
    tallied::run_to_close(&words, d.rows(), &index, times, run)
}

// Takes the run through the weighted step that closes it, at most a given number of steps; how many they were, and whether it is closed
// then. The run is as it was where the call is refused: 1, 2, 4, 3, 12, 13.
pub fn continue_weighted(
    d: Dimensions,
    tables: Tables<'_>,
    times: u64,
    run: &mut Run,
) -> Result<StepsTaken, Refusal>
    ensures value { result ≡ steps_taken (continued_with weighted_rule d (lent_words tables) times run.old) }
    ensures run_after { run.new ≡ (continued_with weighted_rule d (lent_words tables) times run.old).run }
    ensures result_value { code_of (taken_outcome result) ∷ taken_numbers result
        ≡ said (outcome (table_checks d (lent_words tables) ++ state_checks d run.old))
        (ran_numbers (run_with weighted_rule d.n (always (rows_of d (lent_words tables))) times (state_of run.old))) }
{
    solver::check_all(d, tables, *run)?;
    Ok(run_accepted(d, tables, times, run))
}

// The answer of a fresh run over accepted tables.
fn run_fresh(d: Dimensions, tables: Tables<'_>, budget: u64) -> Answer
    requires { outcome (table_checks d (words_in tables)) ≡ Ok tt }
    ensures { result ≡ answer_with weighted_rule d.n (always (rows_of d (lent_words tables))) budget }
{
    let mut run = Run::fresh(d.n);
    let taken = run_accepted(d, tables, budget, &mut run);
    Answer {
        count: taken.steps,
        verdict: verdicts::verdict_of(run),
    }
}

// The answer of a fresh run with the weighted choice, which stops when it is closed or the budget is spent; 1, 2, 4 or 3 if the tables are
// not accepted.
pub fn solve_weighted(d: Dimensions, tables: Tables<'_>, budget: u64) -> Result<Answer, Refusal>
    ensures value { result ≡ solved_with weighted_rule d (lent_words tables) budget }
    ensures result_value { solved_code result ∷ solved_numbers result ≡ said (outcome (table_checks d (lent_words tables)))
        (answer_numbers (answer_with weighted_rule d.n (always (rows_of d (lent_words tables))) budget)) }
{
    tables::accept(d, tables)?;
    Ok(run_fresh(d, tables, budget))
}
