// For hosts in C and Rust: a proof from another solver checked against the tables. The function is a thin call of a proved entry. A slice
// passes as a pointer and then a length. It returns 0 where the proof is accepted, else the refusal's number, and writes nothing.
#![tactic(auto)]

ghost use Rattle.std.specs.Prelude.{◌≡◌};
ghost use Rattle.refusals.specs.Numbers.{code_of};
ghost use Rattle.refusals.specs.Checks.{outcome};
ghost use Rattle.tables.specs.Tables.{lent_tables};
ghost use Rattle.drat.specs.Text.{proof_checks};
ghost use Rattle.codes.specs.Codes.{host_dimensions};

use tables::Tables;

// Whether a DRAT text proves that no assignment makes all rows of the three tables true: if not, the tables' 1, 2, 4 or 3, then 18, 19 or
// 20.
pub fn forkhemit_check_proof(
    n: u64,
    left_rows: u64,
    right_rows: u64,
    public_rows: u64,
    left: &[u32],
    right: &[u32],
    public: &[u32],
    text: &[u8],
) -> u8
    ensures { result ≡ code_of (outcome (proof_checks (host_dimensions n left_rows right_rows public_rows) (lent_tables left right public)
        text.now)) }
{
    let d = codes::dimensions(n, left_rows, right_rows, public_rows);
    let tables = Tables {
        left,
        right,
        public,
    };
    codes::code(drat::check_proof(d, tables, text))
}
