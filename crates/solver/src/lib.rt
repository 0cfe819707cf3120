// The giant step and the budgeted run over two stations' tables and the public one: whether one assignment satisfies all.
#![tactic(auto)]

mod giant;

ghost use Rattle.std.specs.Prelude.{◌≡◌, ◌∷◌, ◌++◌, [], Ok};
ghost use Rattle.refusals.specs.Checks.{outcome};
ghost use Rattle.refusals.specs.Numbers.{said, code_of};
ghost use Rattle.tables.specs.Tables.{lent_words, words_in};
ghost use Rattle.tables.specs.Acceptance.{table_checks};
ghost use Rattle.tables.specs.Rows.{rows_of};
ghost use Rattle.state.specs.WellFormed.{state_checks};
ghost use Rattle.solver.specs.Step.{always};
ghost use Rattle.solver.specs.Entries.{answer_of, answer_numbers, stepped, solved, solved_code, solved_numbers};

use dimensions::Dimensions;
use refusals::Refusal;
use state::Run;
use tables::Tables;
use verdicts::Verdict;

// How many steps were taken, and what they led to.
#[derive(Clone, Copy)]
pub struct Answer {
    pub count: u64,
    pub verdict: Verdict,
}

// Whether the tables are accepted and the run is a well-formed state of their n: 1, 2, 4, 3, 12 or 13 if not.
pub fn check_all(d: Dimensions, tables: Tables<'_>, run: Run) -> Result<(), Refusal>
    ensures value { result ≡ outcome (table_checks d (lent_words tables) ++ state_checks d run) }
    ensures result_value { code_of result ∷ [] ≡ said (outcome (table_checks d (lent_words tables) ++ state_checks d run)) [] }
{
    tables::accept(d, tables)?;
    state::check_state(d, run)
}

// One giant step of the run, which a refusal leaves as it was.
pub fn step(d: Dimensions, tables: Tables<'_>, run: &mut Run) -> Result<(), Refusal>
    ensures value { result ≡ (stepped d (lent_words tables) run.old).outcome }
    ensures run_after { run.new ≡ (stepped d (lent_words tables) run.old).run }
    ensures result_value { code_of result ∷ []
        ≡ said (outcome (table_checks d (lent_words tables) ++ state_checks d run.old)) [] }
{
    check_all(d, tables, *run)?;
    *run = giant::giant_step(d, tables, *run);
    Ok(())
}

// The answer of a fresh run over accepted tables.
fn run_to_close(d: Dimensions, tables: Tables<'_>, budget: u64) -> Answer
    requires { outcome (table_checks d (words_in tables)) ≡ Ok tt }
    ensures { result ≡ answer_of d.n (always (rows_of d (lent_words tables))) budget }
{
    let mut run = Run::fresh(d.n);
    let mut count = 0;
    // A loop: the run says when it ends.
    while verdicts::goes_on(run, count, budget) {
        run = giant::giant_step(d, tables, run);
        count += 1;
    }
    Answer {
        count,
        verdict: verdicts::verdict_of(run),
    }
}

// The answer of a fresh run that stops when it is closed or the budget is spent; 1, 2, 4 or 3 if the tables are not accepted.
pub fn solve(d: Dimensions, tables: Tables<'_>, budget: u64) -> Result<Answer, Refusal>
    ensures value { result ≡ solved d (lent_words tables) budget }
    ensures result_value { solved_code result ∷ solved_numbers result ≡ said (outcome (table_checks d (lent_words tables)))
        (answer_numbers (answer_of d.n (always (rows_of d (lent_words tables))) budget)) }
{
    tables::accept(d, tables)?;
    Ok(run_to_close(d, tables, budget))
}
