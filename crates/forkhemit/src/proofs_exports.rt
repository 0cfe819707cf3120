// The exports of `host_proofs`, for C: each calls the function of that name there, and states its clauses.
ghost use Rattle.std.specs.Prelude.{◌≡◌};
ghost use Rattle.refusals.specs.Numbers.{code_of};
ghost use Rattle.refusals.specs.Checks.{outcome};
ghost use Rattle.tables.specs.Tables.{lent_tables};
ghost use Rattle.drat.specs.Text.{proof_checks};
ghost use Rattle.codes.specs.Codes.{host_dimensions};

// Whether a DRAT text proves that no assignment makes all rows of the three tables true: if not, the tables' 1, 2, 4 or 3, then 18, 19 or
// 20.
#[unsafe(no_mangle)]
pub extern "C" fn forkhemit_check_proof(
    n: u64,
    left_rows: u64,
    right_rows: u64,
    public_rows: u64,
    left: &[u32],
    right: &[u32],
    public: &[u32],
    text: &[u8],
) -> u8
    ensures { result ≡ code_of (outcome (proof_checks (host_dimensions n left_rows right_rows public_rows) (lent_tables left right public)
        text.now)) }
{
    host_proofs::forkhemit_check_proof(
        n,
        left_rows,
        right_rows,
        public_rows,
        left,
        right,
        public,
        text,
    )
}
