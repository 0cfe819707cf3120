// The giant step that tells its rule (document 02, Req 07): which rule applied, the row that shows it and the literal taken.
#![tactic(auto)]

mod lowest;

ghost use Rattle.std.specs.Prelude.{◌≡◌, true, ◌++◌, ◌≤◌, length, Ok};
ghost use Rattle.refusals.specs.Checks.{outcome};
ghost use Rattle.refusals.specs.Numbers.{said};
ghost use Rattle.tables.specs.Tables.{lent_words, words_in};
ghost use Rattle.tables.specs.Acceptance.{table_checks};
ghost use Rattle.tables.specs.Rows.{rows_of};
ghost use Rattle.scan.specs.Rules as Rules;
ghost use Rattle.state.specs.State.{state_of};
ghost use Rattle.state.specs.WellFormed.{well_formed, state_checks};
ghost use Rattle.explained.specs.Explanation.{told_numbers, told_back, told, explanation, explained, told_of, explained_said};

use dimensions::Dimensions;
use refusals::Refusal;
use scan::Rule;
use state::{Run, Standing};
use tables::Tables;

// What a step tells: its rule; the number from 1, over all tables, of the lowest row in conflict, or of the lowest that forces the literal
// taken; and the variable that it sets, from 0 as bits are. A conflict with a level sets the level's variable false, a choice its own true.
#[derive(Clone, Copy)]
pub enum Told {
    Nothing,
    AllSatisfied,
    ConflictWithLevel(u32, u32),
    ConflictWithoutLevel(u32),
    Forced(u32, u32, bool),
    Chosen(u32),
}

// What is told as four numbers: rule, row, variable from 1, value.
pub fn numbers(told: Told) -> [u64; 4]
    ensures { result ≡ told_numbers told }
{
    match told {
        Told::Nothing => [0, 0, 0, 0],
        Told::AllSatisfied => [1, 0, 0, 0],
        Told::ConflictWithLevel(row, variable) => [2, row as u64, variable as u64 + 1, 0],
        Told::ConflictWithoutLevel(row) => [3, row as u64, 0, 0],
        Told::Forced(row, variable, value) => [4, row as u64, variable as u64 + 1, value as u64],
        Told::Chosen(variable) => [5, 0, variable as u64 + 1, 1],
    }
}

// What a conflict in this row tells: the variable of the last level, if there is one.
fn tell_conflict(run: Run, row: u32) -> Told
    requires { run.depth ≤ 32 }
    ensures { result ≡ told_back row (state_of run).levels }
{
    let levels = run.levels;
    let depth = run.depth;
    if depth == 0 {
        return Told::ConflictWithoutLevel(row);
    }
    let last = levels[depth - 1];
    Told::ConflictWithLevel(row, last.chosen)
}

// What the step of an open run tells, over buffers of rows and nothing else.
fn tell(tables: Tables<'_>, run: Run) -> Told
    requires left_len_bound { length tables.left.now ≤ 510 }
    requires right_len_bound { length tables.right.now ≤ 510 }
    requires public_len_bound { length tables.public.now ≤ 510 }
    requires depth_bound { run.depth ≤ 32 }
    ensures { result ≡ told 32 (Rules.rows_of_words tables.entry.left.now
        ++ (Rules.rows_of_words tables.entry.right.now ++ Rules.rows_of_words tables.entry.public.now))
        (state_of run) (Rules.rule 32
        (Rules.rows_of_words tables.entry.left.now
        ++ (Rules.rows_of_words tables.entry.right.now ++ Rules.rows_of_words tables.entry.public.now)) run.t run.f) }
{
    let t = run.t;
    let f = run.f;
    let rule = scan::find_rule(tables, t, f);
    match rule {
        Rule::AllSatisfied => Told::AllSatisfied,
        Rule::Conflict => {
            let row = lowest::lowest_row(tables, rule, t, f);
            tell_conflict(run, row)
        }
        Rule::Unit(variable, value) => {
            let row = lowest::lowest_row(tables, rule, t, f);
            Told::Forced(row, variable, value)
        }
        Rule::Choice(variable) => Told::Chosen(variable),
    }
}

// What the step of a well-formed run over accepted tables tells: nothing where it is closed.
fn explain(d: Dimensions, tables: Tables<'_>, run: Run) -> Told
    requires public_value { outcome (table_checks d (words_in tables)) ≡ Ok tt }
    requires run_value { well_formed run ≡ true }
    ensures { result ≡ explanation d.n (rows_of d (lent_words tables)) (state_of run) }
{
    let standing = run.standing;
    match standing {
        Standing::Open => {}
        Standing::Satisfied => return Told::Nothing,
        Standing::Refuted => return Told::Nothing,
    }
    tell(tables.rows(d), run)
}

// One giant step of the run, and what the step tells; a refusal leaves the run as it was: 1, 2, 4, 3, 12, 13. The rows are looked at again
// for what is told, so that the plain step does no more than before.
pub fn step_explained(d: Dimensions, tables: Tables<'_>, run: &mut Run) -> Result<Told, Refusal>
    ensures value { result ≡ told_of (explained d (lent_words tables) run.old) }
    ensures run_after { run.new ≡ (explained d (lent_words tables) run.old).run }
    ensures result_value { explained_said result ≡ said (outcome (table_checks d (lent_words tables) ++ state_checks d run.old))
        (told_numbers (explanation d.n (rows_of d (lent_words tables)) (state_of run.old))) }
{
    let before = *run;
    solver::step(d, tables, run)?;
    Ok(explain(d, tables, before))
}
