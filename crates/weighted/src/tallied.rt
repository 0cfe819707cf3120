// The weighted run with a tally beside it (document 02, "Which rows does a variable touch"): rules 1 to 3 are read off the tally, and where
// a variable is chosen the unsatisfied rows are weighed and no others are read.
ghost use Rattle.std.specs.Prelude.{◌≡◌, true, ◌-◌, ◌≤◌};
ghost use Rattle.std.specs.Int.Bits.{bit_or};
ghost use Rattle.tables.specs.Rows.{rows_from};
ghost use Rattle.state.specs.State.{state_of};
ghost use Rattle.state.specs.WellFormed.{well_formed};
ghost use Rattle.solver.specs.Step.{always};
ghost use Rattle.solver.specs.Entries.{run_with};
ghost use Rattle.tally.specs.Ruling.{rule_by};
ghost use Rattle.indexed.specs.Tallied.{Indexed};
ghost use Rattle.indexed.specs.Continuing.{continued_by, steps_taken};
ghost use Rattle.weighted.specs.Weights.{heaviest, choosing, weighted_rule};
ghost use Rattle.weighted.specs.Floats.{Weighs, Adds, word_weight, set_weight};

use crate::weights;
use indexed::StepsTaken;
use scan::Rule;
use state::Run;
use tally::Tally;

// Adds the weights of a set of the 64 rows from `first` on, all of them unsatisfied: each adds 2 to the power minus its number of free
// variables to each of these, `unset` being all free variables.
fn weigh_word(weights: &mut [f64; 32], words: &[u32; 768], first: usize, set: u64, unset: u32)
    requires { first ≤ 320 }
    ensures { Adds (word_weight words.now first set unset) weights.old weights.new }
{
    let mut left = set;
    // A loop: std has no iterator over the bits of a word.
    while left != 0 {
        let at = 2 * (first + left.trailing_zeros() as usize);
        left &= left - 1;
        let held = words[at] | words[at + 1];
        let variables = held & unset;
        weights::raise(
            weights,
            variables,
            weights::power(u32::count_ones(variables) as u8),
        );
    }
}

// The weights of the variables over a set of rows, all of them unsatisfied.
fn weigh_set(words: &[u32; 768], set: [u64; 6], unset: u32) -> [f64; 32]
    ensures { Weighs result (set_weight words.now set unset) }
{
    let mut weights = [0.0f64; 32];
    weigh_word(&mut weights, words, 0, set[0], unset);
    weigh_word(&mut weights, words, 64, set[1], unset);
    weigh_word(&mut weights, words, 128, set[2], unset);
    weigh_word(&mut weights, words, 192, set[3], unset);
    weigh_word(&mut weights, words, 256, set[4], unset);
    weigh_word(&mut weights, words, 320, set[5], unset);
    weights
}

// The rule that applies, read off the tally, with the heaviest variable where it is rule 4: rows are read then only.
fn find_rule(words: &[u32; 768], index: &[u64; 384], t: u32, f: u32, tally: Tally) -> Rule
    ensures { result ≡ choosing (heaviest (set_weight words.now tally.unsatisfied (4294967295 - bit_or t f)) 32)
        (rule_by index.now t f tally) }
{
    let found = tally::rule(index, t, f, tally);
    let unsatisfied = tally.unsatisfied;
    match found {
        Rule::AllSatisfied => found,
        Rule::Conflict => found,
        Rule::Unit(_, _) => found,
        Rule::Choice(_) => {
            Rule::Choice(weights::heaviest(weigh_set(words, unsatisfied, !(t | f))))
        }
    }
}

// Takes the run through weighted steps over rows and their index, to the one that closes it and at most a given number.
pub(crate) fn run_to_close(
    words: &[u32; 768],
    rows: usize,
    index: &[u64; 384],
    times: u64,
    run: &mut Run,
) -> StepsTaken
    requires indexed { Indexed run.old.n words.now rows index.now }
    requires run_value { well_formed run.old ≡ true }
    ensures value { Ok result ≡ steps_taken (continued_by run.old.n
        (run_with weighted_rule run.old.n (always (rows_from words.now 0 rows)) times (state_of run.old))) }
    ensures run_after { run.new ≡ (continued_by run.old.n
        (run_with weighted_rule run.old.n (always (rows_from words.now 0 rows)) times (state_of run.old))).run }
{
    let mut last = *run;
    let mut tally = tally::survey(words, index, rows, run.t, run.f);
    let mut steps = 0;
    // A loop: the run says when it ends.
    while verdicts::goes_on(last, steps, times) {
        let rule = find_rule(words, index, last.t, last.f, tally);
        let next = rules::follow(last, rule);
        tally = tally::after_rule(
            words, rows, index, last.t, last.f, next.t, next.f, rule, tally,
        );
        last = next;
        steps += 1;
    }
    *run = last;
    StepsTaken {
        steps,
        closed: verdicts::closed(last),
    }
}
