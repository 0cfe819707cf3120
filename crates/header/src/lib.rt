// The header of a DIMACS text, after its remarks: n and m within their limits, or the refusal.
#![tactic(auto)]

ghost use Rattle.std.specs.Prelude.{◌≡◌, ◌≤◌, length};
ghost use Rattle.lexer.specs.Bytes.{is_blank};
ghost use Rattle.lexer.specs.Pieces.{parts_from};
ghost use Rattle.numbers.specs.Numbers.{number, number_read};
ghost use Rattle.header.specs.Header.{beyond, judged_sizes, two_numbers, header_parts, sizes_of, header_of, sizes_said, header_said};
ghost use Rattle.header.specs.Header.{HeaderFrom};

use dimensions::Dimensions;
use lexer::kinds::Kind;
use refusals::Refusal;

// What a header says, n and m or 1, 2 or 5, and the place past its line.
#[derive(Clone, Copy)]
pub struct Header {
    pub sizes: Result<(u8, u8), Refusal>,
    pub end: usize,
}

// Whether a number is not from the least to the most.
fn is_beyond(least: u64, most: u64, minus: bool, v: u32) -> bool
    ensures { result ≡ beyond least most minus v }
{
    minus | (((v as u64) < least) | (most < v as u64))
}

// Two numbers as n and m, where both are within their limits.
fn check_limits(s: bool, v: u32, t: bool, w: u32, least: u8) -> Result<(u8, u8), Refusal>
    ensures { result ≡ judged_sizes least (number s v) (number t w) }
{
    if is_beyond(1, Dimensions::VARIABLES, s, v) {
        return Err(Refusal::Variables);
    }
    if is_beyond(least as u64, Dimensions::ROWS, t, w) {
        return Err(Refusal::RowCount);
    }
    let n = v as u8;
    let m = w as u8;
    Ok((n, m))
}

// Two parts as n and m, where both are well-formed.
fn read_both(n: &[u8], m: &[u8], least: u8) -> Result<(u8, u8), Refusal>
    ensures { result ≡ judged_sizes least (number_read n.now) (number_read m.now) }
{
    let Some((s, v)) = numbers::read_number(n) else {
        return Err(Refusal::Text);
    };
    let Some((t, w)) = numbers::read_number(m) else {
        return Err(Refusal::Text);
    };
    check_limits(s, v, t, w, least)
}

// The two parts from `at` on as n and m, where no third follows.
fn read_sizes(line: &[u8], at: usize, least: u8) -> Result<(u8, u8), Refusal>
    ensures { result ≡ two_numbers least (parts_from is_blank line.now at) }
{
    let Some((n, n_end)) = lexer::pieces::next_part(line, at, Kind::Blank) else {
        return Err(Refusal::Text);
    };
    let Some((m, m_end)) = lexer::pieces::next_part(line, n_end, Kind::Blank) else {
        return Err(Refusal::Text);
    };
    let None = lexer::pieces::next_part(line, m_end, Kind::Blank) else {
        return Err(Refusal::Text);
    };
    read_both(&line[n..n_end], &line[m..m_end], least)
}

// n and m after `p`, at the first byte, and `cnf`.
fn read_parts(line: &[u8], least: u8) -> Result<(u8, u8), Refusal>
    ensures { result ≡ header_parts least (parts_from is_blank line.now 0) }
{
    let Some((p, p_end)) = lexer::pieces::next_part(line, 0, Kind::Blank) else {
        return Err(Refusal::Text);
    };
    let Some((f, f_end)) = lexer::pieces::next_part(line, p_end, Kind::Blank) else {
        return Err(Refusal::Text);
    };
    if p != 0 {
        return Err(Refusal::Text);
    }
    if !check::same(&line[p..p_end], b"p") {
        return Err(Refusal::Text);
    }
    if !check::same(&line[f..f_end], b"cnf") {
        return Err(Refusal::Text);
    }
    read_sizes(line, f_end, least)
}

// n and m of a header's line.
fn read_line(line: &[u8], least: u8) -> Result<(u8, u8), Refusal>
    ensures { result ≡ sizes_of least line.now }
{
    let end = lexer::kinds::trim(line, Kind::Tail);
    read_parts(&line[..end], least)
}

// The place of the first line that is no remark, or the end.
fn find_header(text: &[u8]) -> usize
    ensures upper_bound { result ≤ length text.now }
    ensures header_from { HeaderFrom text.now result }
{
    let mut at = 0;
    // A loop: each turn passes one remark, and where it ends is found only in that turn.
    while at < text.len() {
        if text[at] != b'c' {
            return at;
        }
        let end = lexer::kinds::find(text, at, Kind::LineFeed);
        if text.len() <= end {
            return end;
        }
        at = end + 1;
    }
    at
}

// The header of a text, the first line that is no remark, with the least row count that it may have.
pub fn read_header(text: &[u8], least: u8) -> Header
    ensures value { result ≡ header_of least text.now }
    ensures sizes_value { sizes_said result.sizes ≡ header_said least text.now }
{
    let at = find_header(text);
    let end = lexer::kinds::find(text, at, Kind::LineFeed);
    let sizes = read_line(&text[at..end], least);
    Header { sizes, end }
}
