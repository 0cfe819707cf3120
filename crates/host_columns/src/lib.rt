// For hosts in C and Rust: a table by columns and back. Each function is a thin call of a proved entry. A slice passes as a pointer and
// then a length, an array as a pointer. It returns 0 where the call is taken, else the refusal's number, and then it writes nothing.
#![tactic(auto)]

ghost use Rattle.std.specs.Prelude.{◌≡◌, length};
ghost use Rattle.refusals.specs.Checks.{outcome};
ghost use Rattle.refusals.specs.Numbers.{code_of};
ghost use Rattle.columns.specs.Columns.{column_checks, columns_after, row_checks, rows_after};

// Writes the planes of a table, 64 words for each 32 rows, over the front of the lent ones; 1, 2, 4 or 3 where it is refused, and then no
// word changes.
pub fn forkhemit_columns(n: u64, rows: u64, table: &[u32], planes: &mut [u32]) -> u8
    ensures value { result ≡ code_of (outcome (column_checks n rows table.now (length planes.old))) }
    ensures planes_after { planes.new ≡ columns_after n rows table.now planes.old }
{
    codes::code(columns::to_planes(n as usize, rows as usize, table, planes))
}

// Writes the rows of planes over the front of the lent table; 1, 2, 4 or 24 where they are refused, and then no word changes.
pub fn forkhemit_rows(n: u64, rows: u64, planes: &[u32], table: &mut [u32]) -> u8
    ensures value { result ≡ code_of (outcome (row_checks n rows planes.now (length table.old))) }
    ensures table_after { table.new ≡ rows_after n rows planes.now table.old }
{
    codes::code(columns::from_planes(n as usize, rows as usize, planes, table))
}
