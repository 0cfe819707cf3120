// What a rule of the giant step makes of a run (document 01, "Giant step"), by value: one function a rule. Nothing here is refused: each
// function is total, and gives back the run as it is where its depth leaves no level to remove or to store. Each has one exit, since a
// second one makes the compiled code copy the levels once more.
#![tactic(auto)]

ghost use Rattle.std.specs.Prelude.{◌≡◌};
ghost use Rattle.scan.specs.declared.Rule.TheVariants.{AllSatisfied, Conflict, Unit, Choice};
ghost use Rattle.rules.specs.Followed.{followed};

use scan::Rule;
use state::{Level, Run, Standing};

// Rule 1: nothing but the standing changes.
fn satisfy(run: Run) -> Run
    ensures { result ≡ followed run AllSatisfied }
{
    let levels = run.levels;
    Run {
        n: run.n,
        standing: Standing::Satisfied,
        t: run.t,
        f: run.f,
        depth: run.depth,
        levels,
    }
}

// Rule 2: the last level is removed and its variable goes to F; with no level left the run is refuted.
fn back(run: Run) -> Run
    ensures { result ≡ followed run Conflict }
{
    let mut standing = run.standing;
    let mut t = run.t;
    let mut f = run.f;
    let mut depth = run.depth;
    let mut levels = run.levels;
    if depth == 0 {
        standing = Standing::Refuted;
    } else if depth <= 32 {
        depth -= 1;
        let level = levels[depth];
        levels[depth] = Level {
            t: 0,
            f: 0,
            chosen: 0,
        };
        standing = Standing::Open;
        t = level.t;
        f = words::put(level.f, level.chosen);
    }
    Run {
        n: run.n,
        standing,
        t,
        f,
        depth,
        levels,
    }
}

// Rule 3: the literal is made true.
fn assign(run: Run, variable: u32, positive: bool) -> Run
    ensures { result ≡ followed run (Unit variable positive) }
{
    let levels = run.levels;
    let mut t = run.t;
    let mut f = run.f;
    if positive {
        t = words::put(t, variable);
    } else {
        f = words::put(f, variable);
    }
    Run {
        n: run.n,
        standing: Standing::Open,
        t,
        f,
        depth: run.depth,
        levels,
    }
}

// Rule 4: a level is added and the variable goes to T.
fn choose(run: Run, variable: u32) -> Run
    ensures { result ≡ followed run (Choice variable) }
{
    let mut standing = run.standing;
    let mut t = run.t;
    let mut depth = run.depth;
    let mut levels = run.levels;
    if depth < 32 {
        levels[depth] = Level {
            t,
            f: run.f,
            chosen: variable,
        };
        standing = Standing::Open;
        t = words::put(t, variable);
        depth += 1;
    }
    Run {
        n: run.n,
        standing,
        t,
        f: run.f,
        depth,
        levels,
    }
}

// The run after the rule.
pub fn follow(run: Run, rule: Rule) -> Run
    ensures { result ≡ followed run rule }
{
    match rule {
        Rule::AllSatisfied => satisfy(run),
        Rule::Conflict => back(run),
        Rule::Unit(variable, positive) => assign(run, variable, positive),
        Rule::Choice(variable) => choose(run, variable),
    }
}
