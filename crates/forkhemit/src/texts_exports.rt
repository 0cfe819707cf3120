// The exports of `host_texts`, for C: each calls the function of that name there, and states its clauses.
ghost use Rattle.std.specs.Prelude.{◌≡◌};
ghost use Rattle.tables.specs.Tables.{all_tables};
ghost use Rattle.refusals.specs.Numbers.{code_of};
ghost use Rattle.host_texts.specs.Texts.{texts_of, read_outcome, tables_read, sizes_read};

// Reads three texts into tables, with n and the row counts; the left text's 1, 2 or 5, the right text's, the public one's, then 4 or 6
// where it is refused.
#[unsafe(no_mangle)]
pub extern "C" fn forkhemit_read_tables(
    left_text: &[u8],
    right_text: &[u8],
    public_text: &[u8],
    left: &mut [u32],
    right: &mut [u32],
    public: &mut [u32],
    sizes: &mut [u64; 4],
) -> u8
    ensures value { result ≡ code_of (read_outcome (texts_of left_text.now right_text.now public_text.now)
        (all_tables left.old right.old public.old)) }
    ensures left_after { left.new ≡ (tables_read (texts_of left_text.now right_text.now public_text.now)
        (all_tables left.old right.old public.old)).left }
    ensures right_after { right.new ≡ (tables_read (texts_of left_text.now right_text.now public_text.now)
        (all_tables left.old right.old public.old)).right }
    ensures public_after { public.new ≡ (tables_read (texts_of left_text.now right_text.now public_text.now)
        (all_tables left.old right.old public.old)).public }
    ensures sizes_after { sizes.new ≡ sizes_read (texts_of left_text.now right_text.now public_text.now)
        (all_tables left.old right.old public.old) sizes.old }
{
    host_texts::forkhemit_read_tables(
        left_text,
        right_text,
        public_text,
        left,
        right,
        public,
        sizes,
    )
}
