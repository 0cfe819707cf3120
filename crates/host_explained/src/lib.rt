// For hosts in C and Rust: the giant step that tells its rule. The function is a thin call of a proved entry. A slice passes as a pointer
// and then a length, an array as a pointer. It returns 0 where the call is taken, else the refusal's number, and then all lent memory is as
// it was.
#![tactic(auto)]

ghost use Rattle.std.specs.Prelude.{◌≡◌};
ghost use Rattle.refusals.specs.Numbers.{code_of};
ghost use Rattle.tables.specs.Tables.{lent_tables};
ghost use Rattle.codes.specs.Codes.{host_dimensions};
ghost use Rattle.host_explained.specs.Explanations.{explain_in, run_after, numbers_after};

use tables::Tables;

// One giant step of the run in the lent words and what it tells: rule, row, variable, value; 1, 2, 4, 3, 12 or 13 where it is refused.
pub fn forkhemit_step_explained(
    n: u64,
    left_rows: u64,
    right_rows: u64,
    public_rows: u64,
    left: &[u32],
    right: &[u32],
    public: &[u32],
    run: &mut [u32; 101],
    explanation: &mut [u64; 4],
) -> u8
    ensures value { result ≡ code_of (explain_in (host_dimensions n left_rows right_rows public_rows) (lent_tables left right public)
        run.old
        ).outcome }
    ensures run_after { run.new ≡ run_after (explain_in (host_dimensions n left_rows right_rows public_rows) (lent_tables left right public)
        run.old) run.old }
    ensures explanation_after { explanation.new ≡ numbers_after (explain_in (host_dimensions n left_rows right_rows public_rows)
        (lent_tables left right public) run.old) explanation.old }
{
    let d = codes::dimensions(n, left_rows, right_rows, public_rows);
    let tables = Tables {
        left,
        right,
        public,
    };
    let mut next = stored::load(*run);
    match explained::step_explained(d, tables, &mut next) {
        Ok(told) => {
            *run = stored::words(next);
            *explanation = explained::numbers(told);
            0
        }
        Err(refusal) => u8::from(refusal),
    }
}
