// For hosts in C and Rust: the circuit generated and repeated on a run. The function is a thin call of a proved entry. A slice passes as a
// pointer and then a length, an array as a pointer. It returns 0 where the call is taken, else the refusal's number, and then it writes
// nothing.
#![tactic(auto)]

ghost use Rattle.std.specs.Prelude.{◌≡◌};
ghost use Rattle.repeats.specs.Repeating.{gates_after, bytes_after, wires_after};
ghost use Rattle.codes.specs.Codes.{host_dimensions};
ghost use Rattle.stored.specs.Words.{run_in};
ghost use Rattle.refusals.specs.Numbers.{code_of};
ghost use Rattle.tables.specs.Tables.{lent_tables};
ghost use Rattle.host_repeats.specs.Repeats.{repeat_in, repeat_stored, repeat_numbers};

use tables::Tables;

// Repeats the circuit, which it writes over the front of the gate words, on the run until that is closed, at most so many times. The bytes
// then hold the last repeat's inputs, the wires its wires, and the numbers are how many repeats there were and the last mark; 1, 2, 4, 3,
// 7, 10, 12 or 13 where it is refused, and then nothing is written.
pub fn forkhemit_repeat(
    n: u64,
    left_rows: u64,
    right_rows: u64,
    public_rows: u64,
    left: &[u32],
    right: &[u32],
    public: &[u32],
    times: u64,
    gates: &mut [u32],
    bytes: &mut [u8],
    wires: &mut [u8],
    run: &mut [u32; 101],
    repeated: &mut [u64; 2],
) -> u8
    ensures value { result ≡ code_of (repeat_in (host_dimensions n left_rows right_rows public_rows) (lent_tables left right public) times
        gates.old bytes.old wires.old run.old).outcome }
    ensures gates_after { gates.new ≡ gates_after (host_dimensions n left_rows right_rows public_rows) (lent_tables left right public) times
        gates.old bytes.old wires.old (run_in run.old) }
    ensures bytes_after { bytes.new ≡ bytes_after (host_dimensions n left_rows right_rows public_rows) (lent_tables left right public) times
        gates.old bytes.old wires.old (run_in run.old) }
    ensures wires_after { wires.new ≡ wires_after (host_dimensions n left_rows right_rows public_rows) (lent_tables left right public) times
        gates.old bytes.old wires.old (run_in run.old) }
    ensures run_after { run.new ≡ repeat_stored
        (repeat_in (host_dimensions n left_rows right_rows public_rows) (lent_tables left right public)
        times gates.old bytes.old wires.old run.old) run.old }
    ensures repeated_after { repeated.new ≡ repeat_numbers (repeat_in (host_dimensions n left_rows right_rows public_rows)
        (lent_tables left right public) times gates.old bytes.old wires.old run.old)
        repeated.old }
{
    let d = codes::dimensions(n, left_rows, right_rows, public_rows);
    let tables = Tables {
        left,
        right,
        public,
    };
    let mut last = stored::load(*run);
    match repeats::repeat(d, tables, times, gates, bytes, wires, &mut last) {
        Ok(ending) => {
            *run = stored::words(last);
            *repeated = [ending.repeats, ending.mark as u64];
            0
        }
        Err(refusal) => u8::from(refusal),
    }
}
