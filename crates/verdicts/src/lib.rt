// What a run's standing says: whether it has steps left, its verdict, its model (document 01, "Giant step").
#![tactic(auto)]

ghost use Rattle.std.specs.Prelude.{◌≡◌, true, false, cond, [], ◌∷◌, ltb};
ghost use Rattle.refusals.specs.Checks.{outcome};
ghost use Rattle.refusals.specs.Numbers.{said};
ghost use Rattle.state.specs.State.{is_satisfied, if_open, standing_number};
ghost use Rattle.verdicts.specs.Verdicts.{verdict_of, verdict_number, model_word, model_checks, model_of, model_code, model_numbers};

use refusals::Refusal;
use state::{Run, Standing};

// Satisfiable has its model: the set of the variables that are true.
#[derive(Clone, Copy)]
pub enum Verdict {
    Satisfiable(u32),
    Unsatisfiable,
    Unknown,
}

// Whether the run has steps left to take.
pub fn goes_on(run: Run, count: u64, budget: u64) -> bool
    ensures { result ≡ if_open run.standing (ltb count budget) false }
{
    let standing = run.standing;
    match standing {
        Standing::Open => count < budget,
        Standing::Satisfied => false,
        Standing::Refuted => false,
    }
}

// Whether the run is closed: satisfied or refuted.
pub fn closed(run: Run) -> bool
    ensures { result ≡ if_open run.standing false true }
{
    let standing = run.standing;
    match standing {
        Standing::Open => false,
        Standing::Satisfied => true,
        Standing::Refuted => true,
    }
}

// The verdict of a run that goes no further.
pub fn verdict_of(run: Run) -> Verdict
    ensures value { result ≡ verdict_of run.standing run.t }
    ensures result_value { verdict_number result ∷ (model_word result ∷ [])
        ≡ standing_number run.standing ∷ (cond (is_satisfied run.standing) run.t 0 ∷ []) }
{
    let standing = run.standing;
    match standing {
        Standing::Open => Verdict::Unknown,
        Standing::Satisfied => Verdict::Satisfiable(run.t),
        Standing::Refuted => Verdict::Unsatisfiable,
    }
}

// The model of a satisfied run; 12 or 14 if there is none.
pub fn model(run: Run) -> Result<u32, Refusal>
    ensures value { result ≡ model_of run }
    ensures result_value { model_code result ∷ model_numbers result ≡ said (outcome (model_checks run)) (run.t ∷ []) }
{
    if !state::well_formed(run) {
        return Err(Refusal::State);
    }
    let standing = run.standing;
    match standing {
        Standing::Satisfied => Ok(run.t),
        Standing::Open => Err(Refusal::NoModel),
        Standing::Refuted => Err(Refusal::NoModel),
    }
}
