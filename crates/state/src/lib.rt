// A run's state: its sets and levels, the fresh run, and when a state is well-formed (document 01, "Giant step").
#![tactic(auto)]

ghost use Rattle.std.specs.Prelude.{◌≡◌, [], ◌∷◌, ◌≤◌, drop};
ghost use Rattle.refusals.specs.Checks.{outcome};
ghost use Rattle.refusals.specs.Numbers.{code_of, said};
ghost use Rattle.state.specs.State as State;
ghost use Rattle.state.specs.State.{run_of, levels_of, standing_number};
ghost use Rattle.state.specs.WellFormed as WellFormed;
ghost use Rattle.state.specs.WellFormed.{state_checks};

use dimensions::Dimensions;
use refusals::Refusal;

// Whether a run is open or how it ended. Satisfied and refuted runs are closed.
#[derive(Clone, Copy, Debug, PartialEq, Eq)]
pub enum Standing {
    Open,
    Satisfied,
    Refuted,
}

// 0 open, 1 satisfied, 2 refuted.
impl From<Standing> for u32 {
    ghost from_gives = { λ standing number. number ≡ standing_number standing };

    fn from(standing: Standing) -> u32 {
        match standing {
            Standing::Open => 0,
            Standing::Satisfied => 1,
            Standing::Refuted => 2,
        }
    }
}

// T and F from before a choice, and the variable chosen, from 0.
#[derive(Clone, Copy)]
pub struct Level {
    pub t: u32,
    pub f: u32,
    pub chosen: u32,
}

// A run over n variables: those set true, those set false, and the levels, of which the first `depth` are used.
#[derive(Clone, Copy)]
pub struct Run {
    pub n: u8,
    pub standing: Standing,
    pub t: u32,
    pub f: u32,
    pub depth: usize,
    pub levels: [Level; 32],
}

impl Run {
    // The fresh run: open, with nothing set and no level.
    pub fn fresh(n: u8) -> Self
        ensures { result ≡ run_of n State.fresh }
    {
        Run {
            n,
            standing: Standing::Open,
            t: 0,
            f: 0,
            depth: 0,
            levels: [Level {
                t: 0,
                f: 0,
                chosen: 0,
            }; 32],
        }
    }
}

// Whether T and F are disjoint and below n.
fn sets(n: u32, t: u32, f: u32) -> bool
    ensures { result ≡ WellFormed.sets n t f }
{
    if !words::below(t, n) {
        return false;
    }
    if !words::below(f, n) {
        return false;
    }
    t & f == 0
}

// Whether the level may come before T and F: its own are among them, and its chosen variable is in T.
fn precedes(n: u32, level: Level, t: u32, f: u32) -> bool
    ensures { result ≡ WellFormed.precedes n level t f }
{
    let chosen = level.chosen;
    if !sets(n, level.t, level.f) {
        return false;
    }
    if n <= chosen {
        return false;
    }
    if words::bit(level.t | level.f, chosen) {
        return false;
    }
    if (level.t & !t) | (level.f & !f) != 0 {
        return false;
    }
    words::bit(t, chosen)
}

// Whether each of the first depth levels precedes the next, and the last of them T and F.
fn chain(n: u32, levels: [Level; 32], depth: usize, mut t: u32, mut f: u32) -> bool
    requires { depth ≤ 32 }
    ensures { result ≡ WellFormed.chain n t f (levels_of depth levels) }
{
    for level in levels[..depth].iter().rev() {
        if !precedes(n, *level, t, f) {
            return false;
        }
        t = level.t;
        f = level.f;
    }
    true
}

// Whether the levels from depth on are zero.
fn unused(levels: [Level; 32], depth: usize) -> bool
    ensures { result ≡ WellFormed.unused (drop depth levels) }
{
    levels
        .iter()
        .skip(depth)
        .all(|level| level.t | level.f | level.chosen == 0)
}

// Whether the run is a well-formed state of its n.
pub fn well_formed(run: Run) -> bool
    ensures { result ≡ WellFormed.well_formed run }
{
    let n = run.n as u32;
    let depth = run.depth;
    let levels = run.levels;
    if Dimensions::variables_outside(n as u64) {
        return false;
    }
    if !sets(n, run.t, run.f) {
        return false;
    }
    if (run.n as usize) < depth {
        return false;
    }
    if !chain(n, levels, depth, run.t, run.f) {
        return false;
    }
    unused(levels, depth)
}

// Whether the run is a well-formed state of the tables' n: 12 or 13 if not.
pub fn check_state(d: Dimensions, run: Run) -> Result<(), Refusal>
    ensures value { result ≡ outcome (state_checks d run) }
    ensures result_value { code_of result ∷ [] ≡ said (outcome (state_checks d run)) [] }
{
    if !well_formed(run) {
        return Err(Refusal::State);
    }
    if run.n != d.n {
        return Err(Refusal::OtherVariables);
    }
    Ok(())
}
