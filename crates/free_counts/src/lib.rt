// The free literals of each row, a byte a row (document 02, "Literals counted in a byte"). Refusals: 1, 2, 4, 3, 10, 12 and 13.
#![tactic(auto)]

ghost use Rattle.std.specs.Prelude.{◌≡◌, [], ◌∷◌, ◌+◌, ◌≤◌, length};
ghost use Rattle.std.proofs.lemmas.List.Edits.{sets};
ghost use Rattle.refusals.specs.Checks.{outcome};
ghost use Rattle.refusals.specs.Numbers.{code_of, said};
ghost use Rattle.tables.specs.Tables.{lent_words};
ghost use Rattle.tables.specs.Rows.{rows_from};
ghost use Rattle.free_counts.specs.Counts.{free_counts_of, count_checks, counts_after};

use dimensions::Dimensions;
use refusals::Refusal;
use state::Run;
use tables::Tables;

// Whether the rows can be counted into the lent bytes: 1, 2, 4, 3, 10, 12 or 13 if not.
fn check_counts(d: Dimensions, tables: Tables<'_>, run: Run, room: usize) -> Result<(), Refusal>
    ensures { result ≡ outcome (count_checks d (lent_words tables) run room) }
{
    tables::accept(d, tables)?;
    if room < d.rows() {
        return Err(Refusal::Wires);
    }
    state::check_state(d, run)
}

// Counts the free literals of a table's rows into the bytes from a place on; the place after them. Words past the end count as 0.
fn count_rows(words: &[u32], rows: usize, t: u32, f: u32, counts: &mut [u8], at: usize) -> usize
    requires { at + rows ≤ length counts.old }
    ensures value { result ≡ at + rows }
    ensures counts_after { counts.new ≡ sets counts.old at (free_counts_of 32 (rows_from words.now 0 rows) t f) }
{
    for (i, count) in counts[at..at + rows].iter_mut().enumerate() {
        let row = tables::row_at(words, i);
        *count = tables::judge(row, t, f).literals;
    }
    at + rows
}

// Counts the free literals of left rows, right rows and public rows under the run's T and F into the front of the bytes; later bytes stay.
// Refused, it changes no byte.
pub fn count_free(
    d: Dimensions,
    tables: Tables<'_>,
    run: Run,
    counts: &mut [u8],
) -> Result<(), Refusal>
    ensures value { result ≡ outcome (count_checks d (lent_words tables) run (length counts.old)) }
    ensures counts_after { counts.new ≡ counts_after d (lent_words tables) run counts.old }
    ensures result_value { code_of result ∷ []
        ≡ said (outcome (count_checks d (lent_words tables) run (length counts.old))) [] }
{
    check_counts(d, tables, run, counts.len())?;
    let right_at = count_rows(tables.left, d.left as usize, run.t, run.f, counts, 0);
    let public_at = count_rows(
        tables.right,
        d.right as usize,
        run.t,
        run.f,
        counts,
        right_at,
    );
    count_rows(
        tables.public,
        d.public as usize,
        run.t,
        run.f,
        counts,
        public_at,
    );
    Ok(())
}
