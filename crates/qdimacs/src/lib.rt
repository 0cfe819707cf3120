// Reads a QDIMACS text: a table of row words, and the turns in which two sides fix its variables.
#![tactic(auto)]

ghost use Rattle.std.specs.Prelude.{◌≡◌, cond, [], ◌∷◌, ◌≤◌};
ghost use Rattle.refusals.specs.Numbers.{said};
ghost use Rattle.lexer.specs.Bytes.{is_blank};
ghost use Rattle.lexer.specs.Pieces.{parts_from};
ghost use Rattle.dimensions.specs.Sizes.{most_variables, most_rows};
ghost use Rattle.qdimacs.specs.Lines.{bound_on, some_variable, lettered};
ghost use Rattle.qdimacs.specs.Text.{game_text};
ghost use Rattle.qdimacs.specs.TurnsInWords.{no_variable, improper, bound_by, line_held, line_read, arranged};
ghost use Rattle.qdimacs.specs.TurnsInWords.{quantified, game_outcome, quantified_code};
ghost use Rattle.qdimacs.specs.Walk.{walked, lines_past, PrefixEnds, standing_game, last_part};
ghost use Rattle.qdimacs.specs.declared.PrefixLine.TheVariants.{Malformed, Passed};

use lexer::kinds::Kind;
use refusals::Refusal;

// The most variables that a game has.
const MOST: u8 = 12;

// A unit beyond which no digit is added.
const FULL: u64 = 36_028_797_018_963_968;

// A text's game: n, its turns, its row count and its row words, positive before negative; the words past the rows are zero. The turns are
// digits of five bits, the first turn the lowest: twice the variable's bit, and 1 more where the universal side fixes it.
#[derive(Clone, Copy)]
pub struct Quantified {
    pub n: u8,
    pub turns: u64,
    pub rows: u8,
    pub words: [u32; 256],
}

// The variables of the lines read so far. Where each is one of 1 to n and none came twice: their turns, the unit of the next turn's digit,
// and their set.
#[derive(Clone, Copy)]
struct Prefix {
    proper: bool,
    turns: u64,
    unit: u64,
    listed: u32,
}

// What a line makes of the variables before it.
#[derive(Clone, Copy)]
enum PrefixLine {
    Passed(Prefix),
    Clauses,
    Malformed,
}

// The variables of a prefix that is refused.
fn spoilt() -> Prefix
    ensures { result ≡ improper }
{
    Prefix {
        proper: false,
        turns: 0,
        unit: 1,
        listed: 0,
    }
}

// One variable more, if it is one of 1 to n and new.
fn bind(p: Prefix, n: u8, universal: bool, minus: bool, v: u32) -> Prefix
    ensures { result ≡ bound_by n p universal minus v }
{
    if !p.proper | (minus | ((v < 1) | ((n as u32) < v))) {
        return spoilt();
    }
    let i = v - 1;
    if words::bit(p.listed, i) | ((FULL < p.unit) | (p.unit <= p.turns)) {
        return spoilt();
    }
    let digit = universal as u64 + 2 * (i as u64);
    Prefix {
        proper: true,
        turns: p.turns + digit * p.unit,
        unit: 32 * p.unit,
        listed: words::put(p.listed, i),
    }
}

// A line whose 0 ends at a place: it has a variable, and nothing follows the 0.
fn close(line: &[u8], at: usize, some: bool, p: Prefix) -> PrefixLine
    ensures { result ≡ cond (last_part some (parts_from is_blank line.now at)) (Passed p) Malformed }
{
    if !some {
        return PrefixLine::Malformed;
    }
    let None = lexer::pieces::next_part(line, at, Kind::Blank) else {
        return PrefixLine::Malformed;
    };
    PrefixLine::Passed(p)
}

// The numbers of a line from a place on, closed by 0.
fn read_numbers(line: &[u8], start: usize, n: u8, before: Prefix, universal: bool) -> PrefixLine
    ensures { result ≡ line_held n before (some_variable (bound_on universal (parts_from is_blank line.now start))) }
{
    let mut p = before;
    let mut at = start;
    // A loop: a part begins where the one before it ended, and the line is cut off where 0 ends.
    loop {
        let Some((from, to)) = lexer::pieces::next_part(line, at, Kind::Blank) else {
            return PrefixLine::Malformed;
        };
        let Some((minus, v)) = numbers::read_number(&line[from..to]) else {
            return PrefixLine::Malformed;
        };
        if v == 0 {
            return close(line, to, start < at, p);
        }
        p = bind(p, n, universal, minus, v);
        at = to;
    }
}

// The variables of a line that begins with a letter, a part by itself; the line's tail is cut off.
fn read_variables(line: &[u8], n: u8, before: Prefix, universal: bool) -> PrefixLine
    ensures { result ≡ line_held n before (lettered universal (parts_from is_blank line.now 0)) }
{
    let Some((letter, end)) = lexer::pieces::next_part(line, 0, Kind::Blank) else {
        return PrefixLine::Malformed;
    };
    if end - letter != 1 {
        return PrefixLine::Malformed;
    }
    read_numbers(line, end, n, before, universal)
}

// A line between header and clauses, or the clauses' first.
fn read_line(line: &[u8], n: u8, before: Prefix) -> PrefixLine
    ensures { result ≡ line_read n before line.now }
{
    if line.len() == 0 {
        return PrefixLine::Passed(before);
    }
    let first = line[0];
    if first == b'c' {
        return PrefixLine::Passed(before);
    }
    if (first == b'a') | (first == b'e') {
        let end = lexer::kinds::trim(line, Kind::Tail);
        return read_variables(&line[..end], n, before, first == b'a');
    }
    let None = lexer::pieces::next_part(line, 0, Kind::Separator) else {
        return PrefixLine::Clauses;
    };
    PrefixLine::Passed(before)
}

// The lines after the one at a place, up to the clauses' first.
fn read_prefix(text: &[u8], start: usize, n: u8) -> Option<(Prefix, usize)>
    ensures { PrefixEnds text.now (walked n no_variable (lines_past text.now start)) result }
{
    let mut p = Prefix {
        proper: true,
        turns: 0,
        unit: 1,
        listed: 0,
    };
    let mut at = lexer::kinds::find(text, start, Kind::LineFeed);
    // A loop: the clauses' first line ends it, and where that line begins is returned.
    while at < text.len() {
        let end = lexer::kinds::find(text, at + 1, Kind::LineFeed);
        match read_line(&text[at + 1..end], n, p) {
            PrefixLine::Passed(q) => p = q,
            PrefixLine::Clauses => return Some((p, at)),
            PrefixLine::Malformed => return None,
        }
        at = end;
    }
    Some((p, at))
}

// All turns: those of the variables that are not listed come before the others, by number.
fn arrange(listed: u32, listed_turns: u64, n: u8) -> u64
    requires { n ≤ 12 }
    ensures { result ≡ arranged listed listed_turns n }
{
    let mut turns = listed_turns;
    for i in (0..n as u32).rev() {
        if !words::bit(listed, i) {
            turns = (turns << 5) + 2 * (i as u64);
        }
    }
    turns
}

// The game after a header of n and m, or 21, 5 or 22.
fn read_game(text: &[u8], end: usize, n: u8, m: u8) -> Result<Quantified, Refusal>
    requires n_le_most_variables { n ≤ most_variables }
    requires m_le_most_rows { m ≤ most_rows }
    ensures { result ≡ quantified (standing_game n m text.now end) }
{
    if MOST < n {
        return Err(Refusal::GameVariables);
    }
    let Some((p, at)) = read_prefix(text, end, n) else {
        return Err(Refusal::Text);
    };
    let table = dimacs::read_body(text, at, n, m)?;
    if !p.proper {
        return Err(Refusal::LineVariables);
    }
    let words = table.words;
    Ok(Quantified {
        n,
        turns: arrange(p.listed, p.turns, n),
        rows: table.rows,
        words,
    })
}

// The game of a text, or 1, 2, 21, 5 or 22.
pub fn read(text: &[u8]) -> Result<Quantified, Refusal>
    ensures value { result ≡ quantified (game_text text.now) }
    ensures outcome_value { quantified_code result ∷ [] ≡ said (game_outcome (game_text text.now)) [] }
{
    if 65536 < text.len() {
        return Err(Refusal::Text);
    }
    let header = header::read_header(text, 1);
    let (n, m) = header.sizes?;
    read_game(text, header.end, n, m)
}
