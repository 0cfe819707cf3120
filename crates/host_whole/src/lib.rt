// For hosts in C and Rust: the answer of a run that repeats the circuit through its whole budget. The function is a thin call of a proved
// entry. A slice passes as a pointer and then a length, an array as a pointer. It returns 0 where the call is taken, else the refusal's
// number, and then it writes nothing.
#![tactic(auto)]

ghost use Rattle.std.specs.Prelude.{◌≡◌};
ghost use Rattle.tables.specs.Tables.{lent_tables};
ghost use Rattle.solver.specs.Entries.{solved_code, solved_numbers};
ghost use Rattle.whole_budget.specs.WholeBudget.{solved_whole, gates_after_whole, bytes_after_whole, wires_after_whole};
ghost use Rattle.codes.specs.Codes.{host_dimensions};
ghost use Rattle.lent.specs.Lent.{numbers_or};

use tables::Tables;

// The answer of a fresh run by the circuit, which is written over the front of the gate words and applied as many times as the budget says,
// closed or not: the budget, verdict, model. The bytes and the wires that it used are zeros then, so that no closing wire and no row is
// left; 1, 2, 4, 3, 7, 23 or 10 where it is refused, and then nothing is written.
pub fn forkhemit_solve_whole(
    n: u64,
    left_rows: u64,
    right_rows: u64,
    public_rows: u64,
    left: &[u32],
    right: &[u32],
    public: &[u32],
    budget: u64,
    gates: &mut [u32],
    bytes: &mut [u8],
    wires: &mut [u8],
    answer: &mut [u64; 3],
) -> u8
    ensures value { result ≡ solved_code (solved_whole (host_dimensions n left_rows right_rows public_rows) (lent_tables left right public)
        budget
        gates.old bytes.old wires.old) }
    ensures gates_after { gates.new ≡ gates_after_whole (host_dimensions n left_rows right_rows public_rows) (lent_tables left right public)
        budget gates.old bytes.old wires.old }
    ensures bytes_after { bytes.new ≡ bytes_after_whole (host_dimensions n left_rows right_rows public_rows) (lent_tables left right public)
        budget gates.old bytes.old wires.old }
    ensures wires_after { wires.new ≡ wires_after_whole (host_dimensions n left_rows right_rows public_rows) (lent_tables left right public)
        budget gates.old bytes.old wires.old }
    ensures answer_after { answer.new ≡ numbers_or (solved_numbers (solved_whole (host_dimensions n left_rows right_rows public_rows)
        (lent_tables left right public) budget gates.old bytes.old wires.old)) answer.old }
{
    let d = codes::dimensions(n, left_rows, right_rows, public_rows);
    let tables = Tables {
        left,
        right,
        public,
    };
    host_solve::give(
        whole_budget::solve_whole(d, tables, budget, gates, bytes, wires),
        answer,
    )
}
