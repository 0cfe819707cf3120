// For hosts in C and Rust: where a row's clause is in its station's text, and its bytes. Each function is a thin call of proved entries. A
// slice passes as a pointer and then a length, an array as a pointer. It returns 0 where the call is taken, else the refusal's number, and
// then it writes nothing.
#![tactic(auto)]

ghost use Rattle.std.specs.Prelude.{◌≡◌};
ghost use Rattle.tables.specs.Tables.{lent_tables};
ghost use Rattle.refusals.specs.Numbers.{code_of};
ghost use Rattle.refusals.specs.Checks.{outcome};
ghost use Rattle.excerpts.specs.Excerpts.{placed, placed_code, placed_numbers, clause_bytes};
ghost use Rattle.codes.specs.Codes.{host_dimensions};
ghost use Rattle.lent.specs.Lent.{numbers_or};
ghost use Rattle.host_excerpts.specs.Parts.{room_checks, part_after, length_after, excerpt_in};

use refusals::Refusal;
use tables::Tables;

// The station, start and length of the clause of a row, from 1; 5 for an overlong text, the tables' 1, 2, 4 or 3, the left text's 1, 2 or
// 5, the right text's, 6 or 17 where it is refused.
pub fn forkhemit_clause(
    n: u64,
    left_rows: u64,
    right_rows: u64,
    public_rows: u64,
    left: &[u32],
    right: &[u32],
    public: &[u32],
    left_text: &[u8],
    right_text: &[u8],
    row: u64,
    place: &mut [u64; 3],
) -> u8
    ensures value { result ≡ placed_code (placed (host_dimensions n left_rows right_rows public_rows) (lent_tables left right public)
        left_text.now right_text.now row) }
    ensures place_after { place.new ≡ numbers_or (placed_numbers (placed (host_dimensions n left_rows right_rows public_rows)
        (lent_tables left right public) left_text.now right_text.now row)) place.old }
{
    let d = codes::dimensions(n, left_rows, right_rows, public_rows);
    let tables = Tables {
        left,
        right,
        public,
    };
    match excerpts::clause_place(d, tables, left_text, right_text, row) {
        Ok(found) => {
            *place = [
                found.station as u64,
                found.start as u64,
                found.length as u64,
            ];
            return 0;
        }
        Err(refusal) => return u8::from(refusal),
    }
}

// Writes a part of a text over the front of the bytes and its length into the number, and gives 0; 11 where it is longer than they are.
fn give(part: &[u8], bytes: &mut [u8], length: &mut [u64; 1]) -> u8
    ensures value { result ≡ code_of (outcome (room_checks part.now bytes.old)) }
    ensures bytes_after { bytes.new ≡ part_after (outcome (room_checks part.now bytes.old)) part.now
        bytes.old }
    ensures length_after { length.new ≡ length_after (outcome (room_checks part.now bytes.old)) part.now
        length.old }
{
    if bytes.len() < part.len() {
        return u8::from(Refusal::LineBuffer);
    }
    bytes[..part.len()].copy_from_slice(part);
    *length = [part.len() as u64];
    0
}

// The own bytes of the clause of a row, from 1, as a part of its station's text, over the front of the lent bytes; their number is 0 where
// the row has other words now. What `forkhemit_clause` is refused with, then 11 where they are more than the lent bytes.
pub fn forkhemit_excerpt<'a>(
    n: u64,
    left_rows: u64,
    right_rows: u64,
    public_rows: u64,
    left: &[u32],
    right: &[u32],
    public: &[u32],
    left_text: &'a [u8],
    right_text: &'a [u8],
    row: u64,
    bytes: &mut [u8],
    length: &mut [u64; 1],
) -> u8
    ensures value { result ≡ code_of (excerpt_in (host_dimensions n left_rows right_rows public_rows) (lent_tables left right public)
        left_text.now right_text.now row bytes.old) }
    ensures bytes_after { bytes.new ≡ part_after
        (excerpt_in (host_dimensions n left_rows right_rows public_rows) (lent_tables left right public)
        left_text.now right_text.now row bytes.old)
        (clause_bytes (host_dimensions n left_rows right_rows public_rows) (lent_tables left right public) left_text.now
        right_text.now row) bytes.old }
    ensures length_after { length.new ≡ length_after (excerpt_in (host_dimensions n left_rows right_rows public_rows)
        (lent_tables left right public) left_text.now right_text.now row bytes.old)
        (clause_bytes (host_dimensions n left_rows right_rows public_rows) (lent_tables left right public) left_text.now
        right_text.now row) length.old }
{
    let d = codes::dimensions(n, left_rows, right_rows, public_rows);
    let tables = Tables {
        left,
        right,
        public,
    };
    if let Err(refusal) = excerpts::check_excerpt(d, tables, left_text, right_text, row) {
        return u8::from(refusal);
    }
    let part = excerpts::clause_bytes(d, tables, left_text, right_text, row);
    give(part, bytes, length)
}
