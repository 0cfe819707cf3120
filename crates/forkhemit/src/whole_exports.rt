// The exports of `host_whole`, for C: each calls the function of that name there, and states its clauses.
ghost use Rattle.std.specs.Prelude.{◌≡◌};
ghost use Rattle.tables.specs.Tables.{lent_tables};
ghost use Rattle.solver.specs.Entries.{solved_code, solved_numbers};
ghost use Rattle.whole_budget.specs.WholeBudget.{solved_whole, gates_after_whole, bytes_after_whole, wires_after_whole};
ghost use Rattle.codes.specs.Codes.{host_dimensions};
ghost use Rattle.lent.specs.Lent.{numbers_or};

// The answer of a fresh run by the circuit, which is written over the front of the gate words and applied as many times as the budget says,
// closed or not: the budget, verdict, model. The bytes and the wires that it used are zeros then, so that no closing wire and no row is
// left; 1, 2, 4, 3, 7, 23 or 10 where it is refused, and then nothing is written.
#[unsafe(no_mangle)]
pub extern "C" fn forkhemit_solve_whole(
    n: u64,
    left_rows: u64,
    right_rows: u64,
    public_rows: u64,
    left: &[u32],
    right: &[u32],
    public: &[u32],
    budget: u64,
    gates: &mut [u32],
    bytes: &mut [u8],
    wires: &mut [u8],
    answer: &mut [u64; 3],
) -> u8
    ensures value { result ≡ solved_code (solved_whole (host_dimensions n left_rows right_rows public_rows) (lent_tables left right public)
        budget
        gates.old bytes.old wires.old) }
    ensures gates_after { gates.new ≡ gates_after_whole (host_dimensions n left_rows right_rows public_rows) (lent_tables left right public)
        budget gates.old bytes.old wires.old }
    ensures bytes_after { bytes.new ≡ bytes_after_whole (host_dimensions n left_rows right_rows public_rows) (lent_tables left right public)
        budget gates.old bytes.old wires.old }
    ensures wires_after { wires.new ≡ wires_after_whole (host_dimensions n left_rows right_rows public_rows) (lent_tables left right public)
        budget gates.old bytes.old wires.old }
    ensures answer_after { answer.new ≡ numbers_or (solved_numbers (solved_whole (host_dimensions n left_rows right_rows public_rows)
        (lent_tables left right public) budget gates.old bytes.old wires.old)) answer.old }
{
    host_whole::forkhemit_solve_whole(
        n,
        left_rows,
        right_rows,
        public_rows,
        left,
        right,
        public,
        budget,
        gates,
        bytes,
        wires,
        answer,
    )
}
