// A run with its tally beside it: the giant step by the index, and the run to its close.
ghost use Rattle.std.specs.Prelude.{◌≡◌, true};
ghost use Rattle.tables.specs.Rows.{rows_from};
ghost use Rattle.state.specs.State.{state_of};
ghost use Rattle.state.specs.WellFormed.{well_formed};
ghost use Rattle.solver.specs.Step.{always, step};
ghost use Rattle.solver.specs.Entries.{run_from};
ghost use Rattle.indexed.specs.Tallied.{tallied_of, Indexed, Exact, reached_by};

use state::{Run, Standing};
use tally::Tally;

// A run and its tally.
#[derive(Clone, Copy)]
pub(crate) struct TalliedRun {
    pub(crate) run: Run,
    pub(crate) tally: Tally,
}

// A run after some steps, and how many they were.
#[derive(Clone, Copy)]
pub(crate) struct Reached {
    pub(crate) run: Run,
    pub(crate) steps: u64,
}

// One giant step: the rule is read off the tally, and a newly set variable leads to its own rows only. After a removed level all sets are
// made again.
pub(crate) fn advance(
    words: &[u32; 768],
    rows: usize,
    index: &[u64; 384],
    held: TalliedRun,
) -> TalliedRun
    requires indexed { Indexed held.run.n words.now rows index.now }
    requires exact { Exact (rows_from words.now 0 rows) held }
    ensures { result ≡ tallied_of held.run.n (rows_from words.now 0 rows)
        (step held.run.n (rows_from words.now 0 rows) (state_of held.run)) }
{
    let run = held.run;
    let tally = held.tally;
    let standing = run.standing;
    match standing {
        Standing::Open => {
            let rule = tally::rule(index, run.t, run.f, tally);
            let next = rules::follow(run, rule);
            TalliedRun {
                run: next,
                tally: tally::after_rule(
                    words, rows, index, run.t, run.f, next.t, next.f, rule, tally,
                ),
            }
        }
        Standing::Satisfied => held,
        Standing::Refuted => held,
    }
}

// The run after steps over rows and their index, through the one that closes it and at most so many.
pub(crate) fn run_to_close(
    words: &[u32; 768],
    rows: usize,
    index: &[u64; 384],
    times: u64,
    run: Run,
) -> Reached
    requires indexed { Indexed run.n words.now rows index.now }
    requires run_value { well_formed run ≡ true }
    ensures { result ≡ reached_by run.n (run_from run.n (always (rows_from words.now 0 rows)) times (state_of run)) }
{
    let tally = tally::survey(words, index, rows, run.t, run.f);
    let mut held = TalliedRun { run, tally };
    let mut steps = 0;
    // A loop: the run says when it ends.
    while verdicts::goes_on(held.run, steps, times) {
        held = advance(words, rows, index, held);
        steps += 1;
    }
    let last = held.run;
    Reached { run: last, steps }
}
