// The exports of `host_late`, for C: each calls the function of that name there, and states its clauses.
ghost use Rattle.std.specs.Prelude.{◌≡◌, [], ◌∷◌, get_or};
ghost use Rattle.refusals.specs.Checks.{outcome};
ghost use Rattle.refusals.specs.Numbers.{code_of};
ghost use Rattle.tables.specs.Tables.{all_tables};
ghost use Rattle.late.specs.Replacement.{late_checks, tables_after};
ghost use Rattle.late_indexed.specs.Replacement.{replace_checks, tables_then, index_then, number_then};
ghost use Rattle.codes.specs.Codes.{host_dimensions};
ghost use Rattle.stored.specs.Words.{run_in};
ghost use Rattle.host_late.specs.Conditions.{condition_of};

// Puts a row of these two words in the place of the station's padding row of that number, while the run in the lent words is open; 1, 2, 4,
// 3, 12, 13, 15, 16, or 3 for the new row, where it is refused.
#[unsafe(no_mangle)]
pub extern "C" fn forkhemit_replace(
    n: u64,
    left_rows: u64,
    right_rows: u64,
    public_rows: u64,
    left: &mut [u32],
    right: &mut [u32],
    public: &[u32],
    run: &[u32; 101],
    station: u64,
    row: u64,
    positive: u32,
    negative: u32,
) -> u8
    ensures value { result ≡ code_of (outcome
        (late_checks (host_dimensions n left_rows right_rows public_rows) (all_tables left.old right.old public.now)
        (run_in run.now) (condition_of station row positive negative))) }
    ensures left_after { left.new ≡ (tables_after (host_dimensions n left_rows right_rows public_rows)
        (all_tables left.old right.old public.now)
        (run_in run.now) (condition_of station row positive negative)).left }
    ensures right_after { right.new ≡ (tables_after (host_dimensions n left_rows right_rows public_rows)
        (all_tables left.old right.old public.now)
        (run_in run.now) (condition_of station row positive negative)).right }
{
    host_late::forkhemit_replace(
        n,
        left_rows,
        right_rows,
        public_rows,
        left,
        right,
        public,
        run,
        station,
        row,
        positive,
        negative,
    )
}

// The same with a lent index and a lent number of unsatisfied rows, which are then those of the new tables; 12 too where they were not
// right. Where it is refused, the number is the one that was lent.
#[unsafe(no_mangle)]
pub extern "C" fn forkhemit_replace_indexed(
    n: u64,
    left_rows: u64,
    right_rows: u64,
    public_rows: u64,
    left: &mut [u32],
    right: &mut [u32],
    public: &[u32],
    run: &[u32; 101],
    station: u64,
    row: u64,
    positive: u32,
    negative: u32,
    index: &mut [u64; 384],
    number: &mut [u64; 1],
) -> u8
    ensures value { result ≡ code_of (outcome
        (replace_checks (host_dimensions n left_rows right_rows public_rows) (all_tables left.old right.old public.now)
        index.old (run_in run.now) (get_or number.old 0 0)
        (condition_of station row positive negative))) }
    ensures left_after { left.new ≡ (tables_then (host_dimensions n left_rows right_rows public_rows)
        (all_tables left.old right.old public.now)
        index.old (run_in run.now) (get_or number.old 0 0)
        (condition_of station row positive negative)).left }
    ensures right_after { right.new ≡ (tables_then (host_dimensions n left_rows right_rows public_rows)
        (all_tables left.old right.old public.now)
        index.old (run_in run.now) (get_or number.old 0 0)
        (condition_of station row positive negative)).right }
    ensures index_after { index.new ≡ index_then (host_dimensions n left_rows right_rows public_rows)
        (all_tables left.old right.old public.now)
        index.old (run_in run.now) (get_or number.old 0 0)
        (condition_of station row positive negative) }
    ensures number_after { number.new ≡ number_then (host_dimensions n left_rows right_rows public_rows)
        (all_tables left.old right.old public.now)
        index.old (run_in run.now) (get_or number.old 0 0)
        (condition_of station row positive negative) ∷ [] }
{
    host_late::forkhemit_replace_indexed(
        n,
        left_rows,
        right_rows,
        public_rows,
        left,
        right,
        public,
        run,
        station,
        row,
        positive,
        negative,
        index,
        number,
    )
}
