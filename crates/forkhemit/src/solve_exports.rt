// The exports of `host_solve`, for C: each calls the function of that name there, and states its clauses.
ghost use Rattle.std.specs.Prelude.{◌≡◌};
ghost use Rattle.tables.specs.Tables.{lent_tables};
ghost use Rattle.solver.specs.Entries.{solved, solved_code, solved_numbers};
ghost use Rattle.codes.specs.Codes.{host_dimensions};
ghost use Rattle.lent.specs.Lent.{numbers_or};

// The answer of a fresh run under a budget: count, verdict, model; 1, 2, 4 or 3 where it is refused, and then no number is written.
#[unsafe(no_mangle)]
pub extern "C" fn forkhemit_solve(
    n: u64,
    left_rows: u64,
    right_rows: u64,
    public_rows: u64,
    left: &[u32],
    right: &[u32],
    public: &[u32],
    budget: u64,
    answer: &mut [u64; 3],
) -> u8
    ensures value { result ≡ solved_code (solved (host_dimensions n left_rows right_rows public_rows) (lent_tables left right public)
        budget) }
    ensures answer_after { answer.new ≡ numbers_or (solved_numbers (solved (host_dimensions n left_rows right_rows public_rows)
        (lent_tables left right public) budget)) answer.old }
{
    host_solve::forkhemit_solve(
        n,
        left_rows,
        right_rows,
        public_rows,
        left,
        right,
        public,
        budget,
        answer,
    )
}

// The answer of a fresh run under a budget by the indexed run: count, verdict, model; 1, 2, 4 or 3 where it is refused.
#[unsafe(no_mangle)]
pub extern "C" fn forkhemit_solve_indexed(
    n: u64,
    left_rows: u64,
    right_rows: u64,
    public_rows: u64,
    left: &[u32],
    right: &[u32],
    public: &[u32],
    budget: u64,
    answer: &mut [u64; 3],
) -> u8
    ensures value { result ≡ solved_code (solved (host_dimensions n left_rows right_rows public_rows) (lent_tables left right public)
        budget) }
    ensures answer_after { answer.new ≡ numbers_or (solved_numbers (solved (host_dimensions n left_rows right_rows public_rows)
        (lent_tables left right public) budget)) answer.old }
{
    host_solve::forkhemit_solve_indexed(
        n,
        left_rows,
        right_rows,
        public_rows,
        left,
        right,
        public,
        budget,
        answer,
    )
}
