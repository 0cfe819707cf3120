// Tables by columns, in squares of 32 rows by 32 variables, and back (document 02, "Columns before rows"). Refusals: 1, 2, 4, and then 3
// for rows and 24 for planes.
#![tactic(auto)]

ghost use Rattle.std.specs.Prelude.{◌≡◌, cond, [], ◌∷◌, ltb, ◌+◌, ◌-◌, ◌*◌, ◌/◌, ◌%◌, ◌<◌, ◌≤◌, length, get_or};
ghost use Rattle.std.proofs.lemmas.List.Edits.{sets};
ghost use Rattle.refusals.specs.Checks.{outcome};
ghost use Rattle.refusals.specs.Numbers.{code_of, said};
ghost use Rattle.words.specs.Sets.{any};
ghost use Rattle.squares.specs.Squares.{tabulate};
ghost use Rattle.columns.specs.Planes.{flat, squares_from, table_from};
ghost use Rattle.columns.specs.Columns.{buffer_checks, column_checks, row_checks, stray_word, stray, columns_after, rows_after};

use dimensions::Dimensions;
use refusals::Refusal;
use squares::Square;

// Writes a plane's words at a place. That there are 32 is said for callers, who cannot see the length of an element of an array.
fn put_plane(planes: &mut [u32], at: usize, words: [u32; 32])
    requires { at + 32 ≤ length planes.old }
    ensures { (planes.new ≡ sets planes.old at words) × (length words ≡ 32) }
{
    planes[at..at + 32].copy_from_slice(&words);
}

// Writes a square's words at a place, positive before negative.
fn put_square(planes: &mut [u32], at: usize, square: Square)
    requires { at + 64 ≤ length planes.old }
    ensures { planes.new ≡ sets planes.old at (flat square) }
{
    let positive = square[0];
    let negative = square[1];
    put_plane(planes, at, positive);
    put_plane(planes, at + 32, negative);
}

// Writes k squares of a table, one after the other.
fn put_squares(table: &[u32], k: usize, planes: &mut [u32])
    requires { (k ≤ 4) × (64 * k ≤ length planes.old) }
    ensures { planes.new ≡ sets planes.old 0 (squares_from table.now 0 k) }
{
    // By number: `square` takes it, and after `chunks_exact_mut` a proof would know no word of `planes`.
    for s in 0..k {
        let next = squares::square(table, s as u8);
        put_square(planes, 64 * s, next);
    }
}

// Whether n and the row count are within their limits, and the words lent for the table and the planes are enough: 1, 2 or 4 if not.
fn check_buffers(n: usize, rows: usize, words: usize, space: usize) -> Result<(), Refusal>
    ensures { result ≡ outcome (buffer_checks n rows words space) }
{
    if (n < 1) | (Dimensions::VARIABLES < n as u64) {
        return Err(Refusal::Variables);
    }
    if Dimensions::ROWS < rows as u64 {
        return Err(Refusal::RowCount);
    }
    if (words < 2 * rows) | (space < 64 * ((rows + 31) / 32)) {
        return Err(Refusal::RowBuffer);
    }
    Ok(())
}

// Writes the planes of a table of n variables and `rows` rows over the front of the lent ones: 1, 2, 4 or 3 if it is refused, and the
// planes are then as they were. Words past the squares stay, and the table's past its rows are not looked at.
pub fn to_planes(n: usize, rows: usize, table: &[u32], planes: &mut [u32]) -> Result<(), Refusal>
    ensures value { result ≡ outcome (column_checks n rows table.now (length planes.old)) }
    ensures planes_after { planes.new ≡ columns_after n rows table.now planes.old }
    ensures result_value { code_of result ∷ [] ≡ said (outcome (column_checks n rows table.now (length planes.old))) [] }
{
    check_buffers(n, rows, table.len(), planes.len())?;
    let words = 2 * rows;
    let front = &table[..words];
    if !tables::all_below(front, n as u32) {
        return Err(Refusal::RowBit);
    }
    put_squares(front, (rows + 31) / 32, planes);
    Ok(())
}

// Writes the first k words of a square's rows at a place, two words a row.
fn put_rows(table: &mut [u32], at: usize, k: usize, rows: Square)
    requires { (k ≤ 64) × (at + k ≤ length table.old) }
    ensures { table.new ≡ sets table.old at (tabulate (λ x. get_or (get_or rows (x % 2) []) (x / 2) 0) 0 k) }
{
    for (x, word) in table[at..at + k].iter_mut().enumerate() {
        *word = rows[x % 2][x / 2];
    }
}

// How many of the words left a square takes, which takes `most` at most.
fn share(left: usize, most: usize) -> usize
    ensures { result ≡ cond (ltb left most) left most }
{
    if left < most { left } else { most }
}

// Writes the rows of planes, two words a row.
fn put_table(planes: &[u32], rows: usize, table: &mut [u32])
    requires { (rows ≤ 128) × (2 * rows ≤ length table.old) }
    ensures { table.new ≡ sets table.old 0 (table_from rows planes.now) }
{
    let squares = (rows + 31) / 32;
    // By number: `rows_of` takes it, and after `chunks_mut` a proof would know no word of `table`.
    for s in 0..squares {
        let at = 64 * s;
        let next = squares::rows_of(planes, s as u8);
        put_rows(table, at, share(2 * rows - at, 64), next);
    }
}

// Whether plane p, two a square, has a bit beyond the row count or beyond n. Words of one limit are side by side, so that the compiler may
// take several at once.
fn plane_stray(n: usize, rows: usize, planes: &[u32], p: usize) -> bool
    requires { (n ≤ 32) × (32 * (p / 2) ≤ rows) × (rows ≤ 128) × (32 * p + 32 ≤ length planes.now) }
    ensures { result ≡ any (λ i. stray_word n rows planes.now (32 * p + i)) 32 }
{
    let at = 32 * p;
    let from = at + n;
    let to = at + 32;
    let left = share(rows - 32 * (p / 2), 32) as u32;
    !tables::all_below(&planes[at..from], left) | !tables::all_below(&planes[from..to], 0)
}

// Whether a word of the planes has a bit beyond the row count or beyond n.
fn has_stray(n: usize, rows: usize, planes: &[u32]) -> bool
    requires { (n ≤ 32) × (rows ≤ 128) × (64 * ((rows + 31) / 32) ≤ length planes.now) }
    ensures { result ≡ stray n rows planes.now }
{
    (0..2 * ((rows + 31) / 32)).any(|p| plane_stray(n, rows, planes, p))
}

// Writes the rows of the planes of a table of n variables and `rows` rows over the front of the lent table: 1, 2, 4 or 24 if they are
// refused, and the table is then as it was. Words past the rows stay, and those past the squares are not looked at.
pub fn from_planes(n: usize, rows: usize, planes: &[u32], table: &mut [u32]) -> Result<(), Refusal>
    ensures value { result ≡ outcome (row_checks n rows planes.now (length table.old)) }
    ensures table_after { table.new ≡ rows_after n rows planes.now table.old }
    ensures result_value { code_of result ∷ [] ≡ said (outcome (row_checks n rows planes.now (length table.old))) [] }
{
    check_buffers(n, rows, table.len(), planes.len())?;
    if has_stray(n, rows, planes) {
        return Err(Refusal::PlaneBits);
    }
    put_table(planes, rows, table);
    Ok(())
}
