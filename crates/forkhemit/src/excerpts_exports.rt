// The exports of `host_excerpts`, for C: each calls the function of that name there, and states its clauses.
ghost use Rattle.std.specs.Prelude.{◌≡◌};
ghost use Rattle.tables.specs.Tables.{lent_tables};
ghost use Rattle.refusals.specs.Numbers.{code_of};
ghost use Rattle.excerpts.specs.Excerpts.{placed, placed_code, placed_numbers, clause_bytes};
ghost use Rattle.codes.specs.Codes.{host_dimensions};
ghost use Rattle.lent.specs.Lent.{numbers_or};
ghost use Rattle.host_excerpts.specs.Parts.{part_after, length_after, excerpt_in};

// The station, start and length of the clause of a row, from 1; 5 for an overlong text, the tables' 1, 2, 4 or 3, the left text's 1, 2 or
// 5, the right text's, 6 or 17 where it is refused.
#[unsafe(no_mangle)]
pub extern "C" fn forkhemit_clause(
    n: u64,
    left_rows: u64,
    right_rows: u64,
    public_rows: u64,
    left: &[u32],
    right: &[u32],
    public: &[u32],
    left_text: &[u8],
    right_text: &[u8],
    row: u64,
    place: &mut [u64; 3],
) -> u8
    ensures value { result ≡ placed_code (placed (host_dimensions n left_rows right_rows public_rows) (lent_tables left right public)
        left_text.now right_text.now row) }
    ensures place_after { place.new ≡ numbers_or (placed_numbers (placed (host_dimensions n left_rows right_rows public_rows)
        (lent_tables left right public) left_text.now right_text.now row)) place.old }
{
    host_excerpts::forkhemit_clause(
        n,
        left_rows,
        right_rows,
        public_rows,
        left,
        right,
        public,
        left_text,
        right_text,
        row,
        place,
    )
}

// The own bytes of the clause of a row, from 1, as a part of its station's text, over the front of the lent bytes; their number is 0 where
// the row has other words now. What `forkhemit_clause` is refused with, then 11 where they are more than the lent bytes.
#[unsafe(no_mangle)]
pub extern "C" fn forkhemit_excerpt<'a>(
    n: u64,
    left_rows: u64,
    right_rows: u64,
    public_rows: u64,
    left: &[u32],
    right: &[u32],
    public: &[u32],
    left_text: &'a [u8],
    right_text: &'a [u8],
    row: u64,
    bytes: &mut [u8],
    length: &mut [u64; 1],
) -> u8
    ensures value { result ≡ code_of (excerpt_in (host_dimensions n left_rows right_rows public_rows) (lent_tables left right public)
        left_text.now right_text.now row bytes.old) }
    ensures bytes_after { bytes.new ≡ part_after
        (excerpt_in (host_dimensions n left_rows right_rows public_rows) (lent_tables left right public)
        left_text.now right_text.now row bytes.old)
        (clause_bytes (host_dimensions n left_rows right_rows public_rows) (lent_tables left right public) left_text.now
        right_text.now row) bytes.old }
    ensures length_after { length.new ≡ length_after (excerpt_in (host_dimensions n left_rows right_rows public_rows)
        (lent_tables left right public) left_text.now right_text.now row bytes.old)
        (clause_bytes (host_dimensions n left_rows right_rows public_rows) (lent_tables left right public) left_text.now
        right_text.now row) length.old }
{
    host_excerpts::forkhemit_excerpt(
        n,
        left_rows,
        right_rows,
        public_rows,
        left,
        right,
        public,
        left_text,
        right_text,
        row,
        bytes,
        length,
    )
}
