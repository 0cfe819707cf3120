// Rows and a run packed into bytes, a byte a wire (document 01, "Circuit"). Refusals: 1, 2, 4, 3, 10, 12 and 13.
#![tactic(auto)]

mod packing;

ghost use Rattle.std.specs.Prelude.{◌≡◌, [], ◌∷◌, length};
ghost use Rattle.refusals.specs.Checks.{outcome};
ghost use Rattle.refusals.specs.Numbers.{code_of, said};
ghost use Rattle.tables.specs.Tables.{lent_words};
ghost use Rattle.wires.specs.Packing.{pack_checks, packed};
ghost use Rattle.wires.specs.StatePacking.{packable, packed_state};

use dimensions::Dimensions;
use refusals::Refusal;
use state::Run;
use tables::Tables;

// Whether rows and run can be packed into the lent bytes: 1, 2, 4, 3, 10, 12 or 13 if not.
pub fn check_pack(d: Dimensions, tables: Tables<'_>, run: Run, room: usize) -> Result<(), Refusal>
    ensures value { result ≡ outcome (pack_checks d (lent_words tables) run room) }
    ensures result_value { code_of result ∷ [] ≡ said (outcome (pack_checks d (lent_words tables) run room)) [] }
{
    tables::accept(d, tables)?;
    if room < d.input_wires() {
        return Err(Refusal::Wires);
    }
    state::check_state(d, run)
}

// Packs left rows, right rows, public rows and run into the front of the bytes; later bytes stay. Refused, it changes no byte.
pub fn pack(d: Dimensions, tables: Tables<'_>, run: Run, bytes: &mut [u8]) -> Result<(), Refusal>
    ensures value { result ≡ outcome (pack_checks d (lent_words tables) run (length bytes.old)) }
    ensures bytes_after { bytes.new ≡ packed d (lent_words tables) run bytes.old }
    ensures result_value { code_of result ∷ [] ≡ said (outcome (pack_checks d (lent_words tables) run (length bytes.old))) [] }
{
    check_pack(d, tables, run, bytes.len())?;
    let n = d.n as usize;
    let behind_left = packing::put_rows(n, tables.left, d.left as usize, bytes, 0);
    let behind_right = packing::put_rows(n, tables.right, d.right as usize, bytes, behind_left);
    let behind_rows = packing::put_rows(n, tables.public, d.public as usize, bytes, behind_right);
    packing::put_state(n, run, bytes, behind_rows);
    Ok(())
}

// Packs a run's state into the front of the bytes; later bytes stay. False, and no byte changed, where they are too few or the run is not
// well-formed.
pub fn pack_state(run: Run, bytes: &mut [u8]) -> bool
    ensures value { result ≡ packable run (length bytes.old) }
    ensures bytes_after { bytes.new ≡ packed_state run bytes.old }
{
    let n = run.n;
    if bytes.len() < Dimensions::state_wires_of(n) {
        return false;
    }
    if !state::well_formed(run) {
        return false;
    }
    packing::put_state(n as usize, run, bytes, 0);
    true
}
