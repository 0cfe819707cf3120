// Kinds of bytes, and the runs of them in a text.
ghost use Rattle.std.specs.Prelude.{◌≡◌, not, length};
ghost use Rattle.lexer.specs.Bytes.{is_blank, is_tail, is_separator, trimmed};
ghost use Rattle.lexer.specs.Kinds.{passes};
ghost use Rattle.lexer.specs.Places.{run_end};

// Space and tab; these and CR; these and LF; LF alone.
#[derive(Clone, Copy)]
pub enum Kind {
    Blank,
    Tail,
    Separator,
    LineFeed,
}

// Whether the byte is a space or a tab.
fn is_blank(b: u8) -> bool
    ensures { result ≡ is_blank b }
{
    b == b' ' || b == b'\t'
}

// Whether the byte is blank or CR.
fn is_tail(b: u8) -> bool
    ensures { result ≡ is_tail b }
{
    is_blank(b) || b == b'\r'
}

// Whether the byte separates tokens.
fn is_separator(b: u8) -> bool
    ensures { result ≡ is_separator b }
{
    is_tail(b) || b == b'\n'
}

// Whether the byte is of the kind.
pub(crate) fn is_kind(kind: Kind, b: u8) -> bool
    ensures { result ≡ passes kind b }
{
    match kind {
        Kind::Blank => is_blank(b),
        Kind::Tail => is_tail(b),
        Kind::Separator => is_separator(b),
        Kind::LineFeed => b == b'\n',
    }
}

// The first place from `at` on whose byte is not of the kind, or the end.
pub fn skip(text: &[u8], at: usize, kind: Kind) -> usize
    ensures { result ≡ run_end (passes kind) text.now at }
{
    // A range: the place is what is asked for. A chain over the bytes from `at` on took half as long again where lines are short.
    for i in at..text.len() {
        if !is_kind(kind, text[i]) {
            return i;
        }
    }
    at.max(text.len())
}

// The first place from `at` on whose byte is of the kind, or the end.
pub fn find(text: &[u8], at: usize, kind: Kind) -> usize
    ensures { result ≡ run_end (λ b. not (passes kind b)) text.now at }
{
    // A range, as in `skip`.
    for i in at..text.len() {
        if is_kind(kind, text[i]) {
            return i;
        }
    }
    at.max(text.len())
}

// The text's length without the bytes of the kind at its end.
pub fn trim(text: &[u8], kind: Kind) -> usize
    ensures { result ≡ length (trimmed (passes kind) text.now) }
{
    text.len() - text.iter().rev().take_while(|&&b| is_kind(kind, b)).count()
}
