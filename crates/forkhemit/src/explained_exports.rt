// The exports of `host_explained`, for C: each calls the function of that name there, and states its clauses.
ghost use Rattle.std.specs.Prelude.{◌≡◌};
ghost use Rattle.refusals.specs.Numbers.{code_of};
ghost use Rattle.tables.specs.Tables.{lent_tables};
ghost use Rattle.codes.specs.Codes.{host_dimensions};
ghost use Rattle.host_explained.specs.Explanations.{explain_in, run_after, numbers_after};

// One giant step of the run in the lent words and what it tells: rule, row, variable, value; 1, 2, 4, 3, 12 or 13 where it is refused.
#[unsafe(no_mangle)]
pub extern "C" fn forkhemit_step_explained(
    n: u64,
    left_rows: u64,
    right_rows: u64,
    public_rows: u64,
    left: &[u32],
    right: &[u32],
    public: &[u32],
    run: &mut [u32; 101],
    explanation: &mut [u64; 4],
) -> u8
    ensures value { result ≡ code_of (explain_in (host_dimensions n left_rows right_rows public_rows) (lent_tables left right public)
        run.old
        ).outcome }
    ensures run_after { run.new ≡ run_after (explain_in (host_dimensions n left_rows right_rows public_rows) (lent_tables left right public)
        run.old) run.old }
    ensures explanation_after { explanation.new ≡ numbers_after (explain_in (host_dimensions n left_rows right_rows public_rows)
        (lent_tables left right public) run.old) explanation.old }
{
    host_explained::forkhemit_step_explained(
        n,
        left_rows,
        right_rows,
        public_rows,
        left,
        right,
        public,
        run,
        explanation,
    )
}
