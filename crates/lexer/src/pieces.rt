// The pieces of a text that bytes of a kind set apart.
ghost use Rattle.std.specs.Prelude.{◌≡◌};
ghost use Rattle.lexer.specs.Pieces.{parts_from};
ghost use Rattle.lexer.specs.Kinds.{passes};
ghost use Rattle.lexer.specs.Places.{first_of, piece_at};
ghost use Rattle.lexer.specs.Blanks.{tokens_past, token_start, remark_at};

use crate::kinds;
use crate::kinds::Kind;

// The piece that starts at a place and ends before the next byte of the kind; none at the text's end.
fn piece_at(text: &[u8], start: usize, kind: Kind) -> Option<(usize, usize)>
    ensures { result ≡ piece_at (passes kind) text.now start }
{
    if start < text.len() {
        Some((start, kinds::find(text, start, kind)))
    } else {
        None
    }
}

// The next piece from `at` on that is not empty, the text being cut at each byte of the kind.
pub fn next_part(text: &[u8], at: usize, kind: Kind) -> Option<(usize, usize)>
    ensures { result ≡ first_of (parts_from (passes kind) text.now at) }
{
    piece_at(text, kinds::skip(text, at, kind), kind)
}

// Whether a remark starts at a place: a `c` right after an LF, which is not before `at`.
fn is_remark(text: &[u8], at: usize, place: usize) -> bool
    ensures { result ≡ remark_at text.now at place }
{
    at < place && place < text.len() && text[place] == b'c' && text[place - 1] == b'\n'
}

// The place of the next token from `at` on, which is no line's start, past separators and remarks; or the end.
fn token_start(text: &[u8], at: usize) -> usize
    ensures { result ≡ token_start text.now at }
{
    let mut i = at;
    // A loop: each turn passes one remark, and where it ends is found only in that turn.
    loop {
        let from = kinds::skip(text, i, Kind::Separator);
        if !is_remark(text, i, from) {
            return from;
        }
        i = kinds::find(text, from, Kind::LineFeed);
    }
}

// The next token from `at` on, which is no line's start: separators and remarks set tokens apart.
pub fn next_token(text: &[u8], at: usize) -> Option<(usize, usize)>
    ensures { result ≡ first_of (tokens_past text.now at) }
{
    piece_at(text, token_start(text, at), Kind::Separator)
}
