// For hosts in C and Rust: the circuit's sizes, the circuit generated, its inputs packed, evaluated, its outputs read back. Each function
// is a thin call of a proved entry. A slice passes as a pointer and then a length, an array as a pointer. It returns 0 where the call is
// taken, else the refusal's number, and then it writes nothing.
#![tactic(auto)]

ghost use Rattle.std.specs.Prelude.{◌≡◌, length};
ghost use Rattle.refusals.specs.Checks.{outcome};
ghost use Rattle.dimensions.specs.Sizes.{size_checks};
ghost use Rattle.two_pass.specs.Evaluation.{evaluation_checks, filled_wires};
ghost use Rattle.generator.specs.Generation as Generation;
ghost use Rattle.generator.specs.Generation.{generated_code, generated_numbers};
ghost use Rattle.wires.specs.Packing.{pack_checks, packed};
ghost use Rattle.readback.specs.Reading.{read_back};
ghost use Rattle.codes.specs.Codes.{as_byte, host_dimensions};
ghost use Rattle.stored.specs.Words.{run_in};
ghost use Rattle.refusals.specs.Numbers.{code_of};
ghost use Rattle.tables.specs.Tables.{lent_tables};
ghost use Rattle.lent.specs.Lent.{numbers_or};
ghost use Rattle.host_circuits.specs.Circuits.{sizes_given, read_stored};

use tables::Tables;

// The gate ceiling, the words that the generator needs, input wires and state wires; 1 or 2 where it is refused.
pub fn forkhemit_sizes(
    n: u64,
    left_rows: u64,
    right_rows: u64,
    public_rows: u64,
    sizes: &mut [u64; 4],
) -> u8
    ensures value { result ≡ code_of (outcome (size_checks (host_dimensions n left_rows right_rows public_rows))) }
    ensures sizes_after { sizes.new ≡ sizes_given (host_dimensions n left_rows right_rows public_rows) sizes.old }
{
    let d = codes::dimensions(n, left_rows, right_rows, public_rows);
    if let Err(refusal) = d.check() {
        return u8::from(refusal);
    }
    let ceiling = d.ceiling() as u64;
    let words = 3 * ceiling;
    *sizes = [
        ceiling,
        words,
        d.input_wires() as u64,
        d.state_wires() as u64,
    ];
    0
}

// Writes the circuit, which carries out the giant step, over the front of the words, and how many gates it has; 1, 2 or 7 where it is
// refused, and then nothing is written.
pub fn forkhemit_generate(
    n: u64,
    left_rows: u64,
    right_rows: u64,
    public_rows: u64,
    gates: &mut [u32],
    count: &mut [u64; 1],
) -> u8
    ensures value { result ≡ generated_code (Generation.generated (host_dimensions n left_rows right_rows public_rows) gates.old) }
    ensures gates_after { gates.new ≡ Generation.written_words (host_dimensions n left_rows right_rows public_rows) gates.old }
    ensures count_after { count.new ≡ numbers_or
        (generated_numbers (Generation.generated (host_dimensions n left_rows right_rows public_rows)
        gates.old)) count.old }
    ensures carried { Generation.Carried (host_dimensions n left_rows right_rows public_rows)
        (Generation.generated (host_dimensions n left_rows right_rows public_rows) gates.old) gates.new }
{
    let d = codes::dimensions(n, left_rows, right_rows, public_rows);
    match generator::generate(d, gates) {
        Ok(k) => {
            *count = [k as u64];
            return 0;
        }
        Err(refusal) => return u8::from(refusal),
    }
}

// Packs left rows, right rows, public rows and run over the front of the bytes; 1, 2, 4, 3, 10, 12 or 13 where it is refused, and then no
// byte changes.
pub fn forkhemit_pack(
    n: u64,
    left_rows: u64,
    right_rows: u64,
    public_rows: u64,
    left: &[u32],
    right: &[u32],
    public: &[u32],
    run: &[u32; 101],
    bytes: &mut [u8],
) -> u8
    ensures value { result ≡ code_of (outcome
        (pack_checks (host_dimensions n left_rows right_rows public_rows) (lent_tables left right public)
        (run_in run.now) (length bytes.old))) }
    ensures bytes_after { bytes.new ≡ packed (host_dimensions n left_rows right_rows public_rows) (lent_tables left right public)
        (run_in run.now) bytes.old }
{
    let d = codes::dimensions(n, left_rows, right_rows, public_rows);
    let tables = Tables {
        left,
        right,
        public,
    };
    codes::code(wires::pack(d, tables, stored::load(*run), bytes))
}

// Fills the front of the wires with the inputs and then each gate's value; 9 or 10 where it is refused, and then no byte changes.
pub fn forkhemit_evaluate(gates: &[u32], inputs: &[u8], wires: &mut [u8]) -> u8
    ensures value { result ≡ code_of (outcome (evaluation_checks gates.now inputs.now wires.old)) }
    ensures wires_after { wires.new ≡ filled_wires gates.now inputs.now wires.old }
{
    codes::code(evaluator::evaluate(gates, inputs, wires))
}

// The run of n variables that the front of the bytes holds; 1, 10 or 12 where it is refused, and then no word changes.
pub fn forkhemit_read_back(n: u64, bytes: &[u8], run: &mut [u32; 101]) -> u8
    ensures value { result ≡ code_of (read_back (as_byte n) bytes.now).outcome }
    ensures run_after { run.new ≡ read_stored (read_back (as_byte n) bytes.now) run.old }
{
    let read = readback::read_back(codes::byte(n), bytes);
    lent::store_if(read.outcome, read.run, run);
    codes::code(read.outcome)
}
