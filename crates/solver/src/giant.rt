// The giant step by value (document 01, "Giant step"): the rule that applies, and the step that follows it.
ghost use Rattle.std.specs.Prelude.{◌≡◌, true, Ok};
ghost use Rattle.refusals.specs.Checks.{outcome};
ghost use Rattle.tables.specs.Tables.{lent_words, words_in};
ghost use Rattle.tables.specs.Acceptance.{table_checks};
ghost use Rattle.tables.specs.Rows.{rows_of};
ghost use Rattle.state.specs.State.{state_of, run_of};
ghost use Rattle.scan.specs.Rules as Rules;
ghost use Rattle.solver.specs.Step as Step;
ghost use Rattle.state.specs.WellFormed.{well_formed};

use dimensions::Dimensions;
use scan::Rule;
use state::{Run, Standing};
use tables::Tables;

// The rule that applies to accepted tables at T and F.
fn rule(d: Dimensions, tables: Tables<'_>, t: u32, f: u32) -> Rule
    requires { outcome (table_checks d (words_in tables)) ≡ Ok tt }
    ensures { result ≡ Rules.rule d.n (rows_of d (lent_words tables)) t f }
{
    scan::find_rule(tables.rows(d), t, f)
}

// One giant step of a well-formed run over accepted tables of its n.
pub(crate) fn giant_step(d: Dimensions, tables: Tables<'_>, run: Run) -> Run
    requires public_value { outcome (table_checks d (words_in tables)) ≡ Ok tt }
    requires run_value { well_formed run ≡ true }
    requires n_value { run.n ≡ d.n }
    ensures { result ≡ run_of d.n (Step.step d.n (rows_of d (lent_words tables)) (state_of run)) }
{
    let standing = run.standing;
    match standing {
        Standing::Open => {
            let rule = rule(d, tables, run.t, run.f);
            rules::follow(run, rule)
        }
        Standing::Satisfied => run,
        Standing::Refuted => run,
    }
}
