// One line of a proof's text, DRAT: literals closed by 0, with `d` and a space in front for a deletion (document 02, "Proofs from other
// solvers"). Nothing here is refused: the reader is total, whatever n it is handed.
#![tactic(auto)]

ghost use Rattle.std.specs.Prelude.{◌≡◌, ◌≤◌};
ghost use Rattle.clauses.specs.First.{clauses_from};
ghost use Rattle.drat_line.specs.Lines.{closed_at, is_deletion, has_break, clause_in, added_by, deleted_by, said_of};
ghost use Rattle.drat_line.specs.TotalLines.{is_ended, line_held};

use clauses::Clause;
use lexer::kinds::Kind;
use words::Row;

// What a line says: nothing, a clause added or deleted; or it is malformed.
#[derive(Clone, Copy)]
pub enum Said {
    Nothing,
    Added(Row),
    Deleted(Row),
    Malformed,
}

// Whether a CR or an LF is among the bytes.
fn has_break(part: &[u8]) -> bool
    ensures { result ≡ has_break part.now }
{
    part.iter().any(|&b| b == b'\r' || b == b'\n')
}

// Whether no clause follows.
fn is_ended(part: &[u8], at: usize, n: u8) -> bool
    ensures { result ≡ is_ended (clauses_from n part.now at) }
{
    let next = clauses::read_clause(part, at, n);
    match next {
        Clause::Read(_, _, _) => false,
        Clause::End => true,
        Clause::Unreadable => false,
    }
}

// The one clause of a part of a line.
fn read_one(part: &[u8], n: u8) -> Option<Row>
    requires { n ≤ 32 }
    ensures { result ≡ clause_in n part.now }
{
    if has_break(part) {
        return None;
    }
    let first = clauses::read_clause(part, 0, n);
    match first {
        Clause::Read(row, _, end) => {
            if !is_ended(part, end, n) {
                return None;
            }
            Some(row)
        }
        Clause::End => None,
        Clause::Unreadable => None,
    }
}

// Whether `d` and a space come first.
fn is_deletion(part: &[u8]) -> bool
    ensures { result ≡ is_deletion part.now }
{
    if part.len() < 2 {
        return false;
    }
    (part[0] == b'd') & (part[1] == b' ')
}

// The clause added.
fn added_by(one: Option<Row>) -> Said
    ensures { result ≡ added_by one }
{
    match one {
        Some(row) => Said::Added(row),
        None => Said::Malformed,
    }
}

// The clause deleted.
fn deleted_by(one: Option<Row>) -> Said
    ensures { result ≡ deleted_by one }
{
    match one {
        Some(row) => Said::Deleted(row),
        None => Said::Malformed,
    }
}

// What a line says from its first byte on that is no space or tab.
fn read_said(part: &[u8], n: u8) -> Said
    requires { n ≤ 32 }
    ensures { result ≡ said_of n part.now }
{
    if part.len() == 0 {
        return Said::Nothing;
    }
    if is_deletion(part) {
        return deleted_by(read_one(&part[2..], n));
    }
    added_by(read_one(part, n))
}

// How long a line is without a CR that closes it.
fn closed_at(line: &[u8]) -> usize
    ensures { result ≡ closed_at line.now }
{
    let end = line.len();
    if end == 0 {
        return 0;
    }
    if line[end - 1] == b'\r' {
        return end - 1;
    }
    end
}

// What a line says, its variables from 1 to n. No table has more than 32, and then every line is malformed.
pub fn read_line(line: &[u8], n: u8) -> Said
    ensures { result ≡ line_held n line.now }
{
    if 32 < n {
        return Said::Malformed;
    }
    let end = closed_at(line);
    let whole = &line[..end];
    let from = lexer::kinds::skip(whole, 0, Kind::Blank);
    read_said(&whole[from..], n)
}
