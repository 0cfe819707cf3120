// For hosts in C and Rust: the rows of each literal as an index, the number of unsatisfied rows, and the steps that go by them. Each
// function is a thin call of a proved entry. A slice passes as a pointer and then a length, an array as a pointer. It returns 0 where the
// call is taken, else the refusal's number, and then all lent memory is as it was.
#![tactic(auto)]

ghost use Rattle.std.specs.Prelude.{◌≡◌, [], ◌∷◌};
ghost use Rattle.refusals.specs.Checks.{outcome};
ghost use Rattle.refusals.specs.Numbers.{code_of};
ghost use Rattle.tables.specs.Tables.{lent_tables};
ghost use Rattle.tables.specs.Acceptance.{table_checks};
ghost use Rattle.indexed.specs.Entries.{index_after, counted, counted_code, counted_numbers};
ghost use Rattle.indexed.specs.Continuing.{continued_code, continued_numbers, taken_outcome, taken_numbers};
ghost use Rattle.codes.specs.Codes.{host_dimensions};
ghost use Rattle.stored.specs.Words.{run_in};
ghost use Rattle.lent.specs.Lent.{numbers_or, stored_if};
ghost use Rattle.host_indexed.specs.Steps.{indexed_step_in, continue_in};

use indexed::StepsTaken;
use refusals::Refusal;
use state::Run;
use tables::Tables;

// The index of three tables; 1, 2, 4 or 3 where it is refused.
pub fn forkhemit_index(
    n: u64,
    left_rows: u64,
    right_rows: u64,
    public_rows: u64,
    left: &[u32],
    right: &[u32],
    public: &[u32],
    index: &mut [u64; 384],
) -> u8
    ensures value { result ≡ code_of (outcome
        (table_checks (host_dimensions n left_rows right_rows public_rows) (lent_tables left right public))) }
    ensures index_after { index.new ≡ index_after (host_dimensions n left_rows right_rows public_rows) (lent_tables left right public)
        index.old }
{
    let d = codes::dimensions(n, left_rows, right_rows, public_rows);
    let tables = Tables {
        left,
        right,
        public,
    };
    codes::code(indexed::index(d, tables, index))
}

// How many rows are unsatisfied under the T and F of the run in the lent words; 1, 2, 4, 3, 12 or 13 where it is refused.
pub fn forkhemit_unsatisfied(
    n: u64,
    left_rows: u64,
    right_rows: u64,
    public_rows: u64,
    left: &[u32],
    right: &[u32],
    public: &[u32],
    run: &[u32; 101],
    number: &mut [u64; 1],
) -> u8
    ensures value { result ≡ counted_code (counted (host_dimensions n left_rows right_rows public_rows) (lent_tables left right public)
        (run_in run.now)) }
    ensures number_after { number.new ≡ numbers_or (counted_numbers (counted (host_dimensions n left_rows right_rows public_rows)
        (lent_tables left right public) (run_in run.now))) number.old }
{
    let d = codes::dimensions(n, left_rows, right_rows, public_rows);
    let tables = Tables {
        left,
        right,
        public,
    };
    match indexed::unsatisfied(d, tables, stored::load(*run)) {
        Ok(rows) => {
            *number = [rows as u64];
            return 0;
        }
        Err(refusal) => return u8::from(refusal),
    }
}

// One giant step of the run in the lent words, with its number of unsatisfied rows; 1, 2, 4, 3, 12 or 13 where it is refused: then the
// step's number is the one that was lent.
pub fn forkhemit_step_indexed(
    n: u64,
    left_rows: u64,
    right_rows: u64,
    public_rows: u64,
    left: &[u32],
    right: &[u32],
    public: &[u32],
    index: &[u64; 384],
    run: &mut [u32; 101],
    number: &mut [u64; 1],
) -> u8
    ensures value { result ≡ code_of (indexed_step_in (host_dimensions n left_rows right_rows public_rows) (lent_tables left right public)
        index.now run.old number.old).outcome }
    ensures run_after { run.new ≡ stored_if (indexed_step_in (host_dimensions n left_rows right_rows public_rows)
        (lent_tables left right public)
        index.now run.old number.old).outcome
        (indexed_step_in (host_dimensions n left_rows right_rows public_rows) (lent_tables left right public) index.now
        run.old number.old).run run.old }
    ensures number_after { number.new ≡ (indexed_step_in (host_dimensions n left_rows right_rows public_rows)
        (lent_tables left right public)
        index.now run.old number.old).number ∷ [] }
{
    let d = codes::dimensions(n, left_rows, right_rows, public_rows);
    let tables = Tables {
        left,
        right,
        public,
    };
    let mut held = stored::load(*run);
    let outcome = indexed::step_indexed(d, tables, index, &mut held, &mut number[0]);
    lent::store_if(outcome, held, run);
    codes::code(outcome)
}

// Stores the run that was continued, writes how many steps it took and 1 if it is closed, else 0, and gives 0; the refusal's number where
// it was refused, and then nothing is written.
pub fn give_continued(
    done: Result<StepsTaken, Refusal>,
    last: Run,
    run: &mut [u32; 101],
    continued: &mut [u64; 2],
) -> u8
    ensures value { result ≡ code_of (taken_outcome done) }
    ensures run_after { run.new ≡ stored_if (taken_outcome done) last run.old }
    ensures continued_after { continued.new ≡ numbers_or (taken_numbers done) continued.old }
{
    match done {
        Ok(taken) => {
            *run = stored::words(last);
            *continued = [taken.steps, taken.closed as u64];
            0
        }
        Err(refusal) => u8::from(refusal),
    }
}

// Giant steps of the run in the lent words through the one that closes it, at most a given number, by the indexed run; the numbers are how
// many they were, and 1 if the run is closed then, else 0. 1, 2, 4, 3, 12 or 13 where it is refused, and then nothing is written.
pub fn forkhemit_continue(
    n: u64,
    left_rows: u64,
    right_rows: u64,
    public_rows: u64,
    left: &[u32],
    right: &[u32],
    public: &[u32],
    times: u64,
    run: &mut [u32; 101],
    continued: &mut [u64; 2],
) -> u8
    ensures value { result ≡ continued_code (continue_in (host_dimensions n left_rows right_rows public_rows)
        (lent_tables left right public) times
        run.old) }
    ensures run_after { run.new ≡ stored_if (continue_in (host_dimensions n left_rows right_rows public_rows)
        (lent_tables left right public)
        times run.old).outcome (continue_in (host_dimensions n left_rows right_rows public_rows)
        (lent_tables left right public) times run.old).run run.old }
    ensures continued_after { continued.new ≡ numbers_or
        (continued_numbers (continue_in (host_dimensions n left_rows right_rows public_rows)
        (lent_tables left right public) times run.old)) continued.old }
{
    let d = codes::dimensions(n, left_rows, right_rows, public_rows);
    let tables = Tables {
        left,
        right,
        public,
    };
    let mut held = stored::load(*run);
    let done = indexed::continue_indexed(d, tables, times, &mut held);
    give_continued(done, held, run, continued)
}
