// For hosts in C and Rust: the answer of a whole run under a budget, by the plain scan and with an index. Each function is a thin call of a
// proved entry. A slice passes as a pointer and then a length, an array as a pointer. It returns 0 where the call is taken, else the
// refusal's number, and then it writes nothing.
#![tactic(auto)]

ghost use Rattle.std.specs.Prelude.{◌≡◌};
ghost use Rattle.tables.specs.Tables.{lent_tables};
ghost use Rattle.solver.specs.Entries.{solved, solved_code, solved_numbers};
ghost use Rattle.codes.specs.Codes.{host_dimensions};
ghost use Rattle.lent.specs.Lent.{numbers_or};

use refusals::Refusal;
use solver::Answer;
use tables::Tables;

// Writes the answer's count, verdict and model, and gives 0; the refusal's number where there is no answer.
pub fn give(res: Result<Answer, Refusal>, answer: &mut [u64; 3]) -> u8
    ensures value { result ≡ solved_code res }
    ensures answer_after { answer.new ≡ numbers_or (solved_numbers res) answer.old }
{
    match res {
        Ok(given) => {
            let verdict = given.verdict;
            *answer = [
                given.count,
                codes::verdict_number(verdict),
                codes::model_word(verdict),
            ];
            return 0;
        }
        Err(refusal) => return u8::from(refusal),
    }
}

// The answer of a fresh run under a budget: count, verdict, model; 1, 2, 4 or 3 where it is refused, and then no number is written.
pub fn forkhemit_solve(
    n: u64,
    left_rows: u64,
    right_rows: u64,
    public_rows: u64,
    left: &[u32],
    right: &[u32],
    public: &[u32],
    budget: u64,
    answer: &mut [u64; 3],
) -> u8
    ensures value { result ≡ solved_code (solved (host_dimensions n left_rows right_rows public_rows) (lent_tables left right public)
        budget) }
    ensures answer_after { answer.new ≡ numbers_or (solved_numbers (solved (host_dimensions n left_rows right_rows public_rows)
        (lent_tables left right public) budget)) answer.old }
{
    let d = codes::dimensions(n, left_rows, right_rows, public_rows);
    let tables = Tables {
        left,
        right,
        public,
    };
    give(solver::solve(d, tables, budget), answer)
}

// The answer of a fresh run under a budget by the indexed run: count, verdict, model; 1, 2, 4 or 3 where it is refused.
pub fn forkhemit_solve_indexed(
    n: u64,
    left_rows: u64,
    right_rows: u64,
    public_rows: u64,
    left: &[u32],
    right: &[u32],
    public: &[u32],
    budget: u64,
    answer: &mut [u64; 3],
) -> u8
    ensures value { result ≡ solved_code (solved (host_dimensions n left_rows right_rows public_rows) (lent_tables left right public)
        budget) }
    ensures answer_after { answer.new ≡ numbers_or (solved_numbers (solved (host_dimensions n left_rows right_rows public_rows)
        (lent_tables left right public) budget)) answer.old }
{
    let d = codes::dimensions(n, left_rows, right_rows, public_rows);
    let tables = Tables {
        left,
        right,
        public,
    };
    give(indexed::solve_indexed(d, tables, budget), answer)
}
