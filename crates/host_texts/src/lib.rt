// For hosts in C and Rust: three texts are read into tables. The function is a thin call of a proved entry. A slice passes as a pointer and
// then a length, an array as a pointer. It returns 0 where the call is taken, else the refusal's number, and then it writes nothing.
#![tactic(auto)]

ghost use Rattle.std.specs.Prelude.{◌≡◌};
ghost use Rattle.tables.specs.Tables.{all_tables};
ghost use Rattle.refusals.specs.Numbers.{code_of};
ghost use Rattle.dimacs.specs.Text.{as_read};
ghost use Rattle.host_texts.specs.Texts.{all_texts, texts_of, lent_outcome, read_outcome, tables_read, sizes_read};

use dimacs::Table;
use refusals::Refusal;

// What three texts that were read are refused with: 4 where their rows have no room in the lent words; then 6.
fn check_texts(
    left: Table,
    right: Table,
    public: Table,
    left_words: usize,
    right_words: usize,
    public_words: usize,
) -> Result<(), Refusal>
    ensures { result ≡ lent_outcome (all_texts (as_read left) (as_read right) (as_read public)) left_words right_words public_words }
{
    if (left_words < 2 * (left.rows as usize))
        | (right_words < 2 * (right.rows as usize))
        | (public_words < 2 * (public.rows as usize))
    {
        return Err(Refusal::RowBuffer);
    }
    if (left.n != right.n) | (left.n != public.n) {
        return Err(Refusal::TextsDiffer);
    }
    Ok(())
}

// Reads three texts into tables, with n and the row counts; the left text's 1, 2 or 5, the right text's, the public one's, then 4 or 6
// where it is refused.
pub fn forkhemit_read_tables(
    left_text: &[u8],
    right_text: &[u8],
    public_text: &[u8],
    left: &mut [u32],
    right: &mut [u32],
    public: &mut [u32],
    sizes: &mut [u64; 4],
) -> u8
    ensures value { result ≡ code_of (read_outcome (texts_of left_text.now right_text.now public_text.now)
        (all_tables left.old right.old public.old)) }
    ensures left_after { left.new ≡ (tables_read (texts_of left_text.now right_text.now public_text.now)
        (all_tables left.old right.old public.old)).left }
    ensures right_after { right.new ≡ (tables_read (texts_of left_text.now right_text.now public_text.now)
        (all_tables left.old right.old public.old)).right }
    ensures public_after { public.new ≡ (tables_read (texts_of left_text.now right_text.now public_text.now)
        (all_tables left.old right.old public.old)).public }
    ensures sizes_after { sizes.new ≡ sizes_read (texts_of left_text.now right_text.now public_text.now)
        (all_tables left.old right.old public.old) sizes.old }
{
    let l = match dimacs::read(left_text, 1) {
        Ok(table) => table,
        Err(refusal) => return u8::from(refusal),
    };
    let r = match dimacs::read(right_text, 1) {
        Ok(table) => table,
        Err(refusal) => return u8::from(refusal),
    };
    let p = match dimacs::read(public_text, 0) {
        Ok(table) => table,
        Err(refusal) => return u8::from(refusal),
    };
    if let Err(refusal) = check_texts(l, r, p, left.len(), right.len(), public.len()) {
        return u8::from(refusal);
    }
    let left_words = l.words;
    let right_words = r.words;
    let public_words = p.words;
    lent::put_rows(left_words, l.rows, left);
    lent::put_rows(right_words, r.rows, right);
    lent::put_rows(public_words, p.rows, public);
    *sizes = [l.n as u64, l.rows as u64, r.rows as u64, p.rows as u64];
    0
}
