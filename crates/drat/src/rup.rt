// The lines of a proof against rows in words: clauses added, if they follow from the rows present (reverse unit propagation, RUP), and
// deleted, up to the empty clause.
ghost use Rattle.std.specs.Prelude.{◌≡◌, List, [], ◌∷◌, ◌++◌, ◌+◌, ◌-◌, ◌*◌, ◌≤◌, ◌<◌, length, unwrap_or, MatchOption};
ghost use Rattle.tables.specs.Rows.{rows_from};
ghost use Rattle.drat.specs.Proofs.{without, added};
ghost use Rattle.drat.specs.Places.{place};
ghost use Rattle.drat.specs.Progress.{Takes};
ghost use Rattle.drat.specs.declared.rup.Stage.TheVariants.{Checking};

use words::Row;

// How far a proof has come: no empty clause yet, the empty clause added, or an addition that does not follow.
#[derive(Clone, Copy)]
pub enum Stage {
    Checking,
    Accepted,
    Failed,
}

// How many rows are present, in front of the words, and how far the proof has come.
#[derive(Clone, Copy)]
pub struct Progress {
    pub count: usize,
    pub stage: Stage,
}

// ---- rows

// One row more, after the others.
fn add(words: &mut [u32], count: usize, row: Row)
    requires { 2 * count + 2 ≤ length words.old }
    ensures { rows_from words.new 0 (count + 1) ≡ rows_from words.old 0 count ++ (row ∷ []) }
{
    words[2 * count] = row.positive;
    words[2 * count + 1] = row.negative;
}

// The rows of a table after the others: how many there are then.
pub(crate) fn append(words: &mut [u32], count: usize, table: &[u32], rows: usize) -> usize
    requires rows_in_bounds { 2 * (count + rows) ≤ length words.old }
    requires rows_in_bounds_2 { 2 * rows ≤ length table.now }
    ensures result_after { rows_from words.new 0 result ≡ rows_from words.old 0 count ++ rows_from table.now 0 rows }
    ensures value { result ≡ count + rows }
{
    let end = count + rows;
    words[2 * count..2 * end].copy_from_slice(&table[..2 * rows]);
    end
}

// How many rows come before the first of the clause's literals; none is told if there is none.
fn find_row(words: &[u32], count: usize, clause: Row) -> Option<usize>
    requires { 2 * count ≤ length words.now }
    ensures value { unwrap_or result count ≡ place clause (rows_from words.now 0 count) }
    ensures in_rows { MatchOption result (Unit {0}) (λ at. at < count) }
{
    let (rows, _) = words[..2 * count].as_chunks::<2>();
    rows.iter()
        .position(|&[p, n]| (p == clause.positive) & (n == clause.negative))
}

// The rows without one of the clause's literals: how many are left.
pub(crate) fn delete(words: &mut [u32], count: usize, clause: Row) -> usize
    requires { 2 * count ≤ length words.old }
    ensures result_after { rows_from words.new 0 result ≡ without clause (rows_from words.old 0 count) }
    ensures upper_bound { result ≤ count }
{
    let Some(at) = find_row(words, count, clause) else {
        return count;
    };
    words.copy_within(2 * at + 2..2 * count, 2 * at);
    count - 1
}

// ---- lines

// A clause added while the proof is checked: it must follow, and the empty clause ends the proof.
fn add_checked(words: &mut [u32], count: usize, clause: Row) -> Progress
    requires { 2 * count + 2 ≤ length words.old }
    ensures takes { Takes (added clause) (record { count = count; stage = Checking }) words.old result words.new }
    ensures count_bound { result.count ≤ count + 1 }
{
    let end = 2 * count;
    if !propagation::follows(&words[..end], clause) {
        return Progress {
            count,
            stage: Stage::Failed,
        };
    }
    if clause.positive | clause.negative == 0 {
        return Progress {
            count,
            stage: Stage::Accepted,
        };
    }
    add(words, count, clause);
    Progress {
        count: count + 1,
        stage: Stage::Checking,
    }
}

// A line that adds a clause.
pub(crate) fn add_line(words: &mut [u32], progress: Progress, clause: Row) -> Progress
    requires { 2 * progress.count + 2 ≤ length words.old }
    ensures takes { Takes (added clause) progress words.old result words.new }
    ensures count_bound { result.count ≤ progress.count + 1 }
{
    let count = progress.count;
    let stage = progress.stage;
    match stage {
        Stage::Checking => add_checked(words, count, clause),
        Stage::Accepted => progress,
        Stage::Failed => progress,
    }
}
