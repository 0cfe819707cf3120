// The exports of `host_columns`, for C: each calls the function of that name there, and states its clauses.
ghost use Rattle.std.specs.Prelude.{◌≡◌, length};
ghost use Rattle.refusals.specs.Checks.{outcome};
ghost use Rattle.refusals.specs.Numbers.{code_of};
ghost use Rattle.columns.specs.Columns.{column_checks, columns_after, row_checks, rows_after};

// Writes the planes of a table, 64 words for each 32 rows, over the front of the lent ones; 1, 2, 4 or 3 where it is refused, and then no
// word changes.
#[unsafe(no_mangle)]
pub extern "C" fn forkhemit_columns(n: u64, rows: u64, table: &[u32], planes: &mut [u32]) -> u8
    ensures value { result ≡ code_of (outcome (column_checks n rows table.now (length planes.old))) }
    ensures planes_after { planes.new ≡ columns_after n rows table.now planes.old }
{
    host_columns::forkhemit_columns(n, rows, table, planes)
}

// Writes the rows of planes over the front of the lent table; 1, 2, 4 or 24 where they are refused, and then no word changes.
#[unsafe(no_mangle)]
pub extern "C" fn forkhemit_rows(n: u64, rows: u64, planes: &[u32], table: &mut [u32]) -> u8
    ensures value { result ≡ code_of (outcome (row_checks n rows planes.now (length table.old))) }
    ensures table_after { table.new ≡ rows_after n rows planes.now table.old }
{
    host_columns::forkhemit_rows(n, rows, planes, table)
}
