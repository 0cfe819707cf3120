// A run read back from bytes, a byte a wire (document 01, "Circuit"). Refusals: 1, 10 and 12.
#![tactic(auto)]

mod unpacking;

ghost use Rattle.std.specs.Prelude.{◌≡◌, [], ◌∷◌, ◌&&◌, ◌≤◌, length, take, Err};
ghost use Rattle.refusals.specs.Numbers.{code_of, said};
ghost use Rattle.words.specs.Sameness.{same};
ghost use Rattle.refusals.specs.Checks.{outcome};
ghost use Rattle.dimensions.specs.Sizes.{state_wire_count};
ghost use Rattle.state.specs.State.{state_of, run_of, fresh};
ghost use Rattle.state.specs.WellFormed.{well_formed};
ghost use Rattle.gates.specs.Memory.{bytes_of};
ghost use Rattle.wires.specs.Layout.{state_bits};
ghost use Rattle.readback.specs.Reading.{read_checks, read_back};

use dimensions::Dimensions;
use refusals::Refusal;
use state::Run;

// A run read back; with a refusal, the fresh run.
#[derive(Clone, Copy)]
pub struct Read {
    pub outcome: Result<(), Refusal>,
    pub run: Run,
}

impl Read {
    // A refusal, with the fresh run of n.
    fn refused(n: u8, refusal: Refusal) -> Self
        ensures { result ≡ record { outcome = Err refusal; run = run_of n fresh } }
    {
        Read {
            outcome: Err(refusal),
            run: Run::fresh(n),
        }
    }
}

// Whether the run is a well-formed state that gives these bytes when it is packed.
fn gives(n: u8, run: Run, bytes: &[u8]) -> bool
    requires n_bound { n ≤ 32 }
    requires n_value { run.n ≡ n }
    requires n_in_bounds { state_wire_count n ≤ length bytes.now }
    ensures { result ≡ well_formed run && same (bytes_of (state_bits n (state_of run))) (take (state_wire_count n) bytes.now) }
{
    let mut again = [0u8; Dimensions::STATE_WIRES];
    if !wires::pack_state(run, &mut again) {
        return false;
    }
    let k = Dimensions::state_wires_of(n);
    check::same(&again[..k], &bytes[..k])
}

// The run of n that the front of the bytes holds; 1, 10 or 12 if there is none.
pub fn read_back(n: u8, bytes: &[u8]) -> Read
    ensures value { result ≡ read_back n bytes.now }
    ensures outcome_value { code_of result.outcome ∷ [] ≡ said (outcome (read_checks n bytes.now)) [] }
{
    if Dimensions::variables_outside(n as u64) {
        return Read::refused(n, Refusal::Variables);
    }
    if bytes.len() < Dimensions::state_wires_of(n) {
        return Read::refused(n, Refusal::Wires);
    }
    let run = unpacking::get_run(n, bytes);
    if !gives(n, run, bytes) {
        return Read::refused(n, Refusal::State);
    }
    Read {
        outcome: Ok(()),
        run,
    }
}
