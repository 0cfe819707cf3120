// Clauses of a text, one at a time. Nothing here is refused: the reader is total, whatever place and n it is handed.
#![tactic(auto)]

ghost use Rattle.std.specs.Prelude.{◌≡◌, ◌∷◌};
ghost use Rattle.clauses.specs.First.{clauses_from, row_with, first, clause_code, clause_numbers, first_said};

use words::Row;

// A clause's row, the place of its first token and the place past its 0.
#[derive(Clone, Copy)]
pub enum Clause {
    Read(Row, usize, usize),
    End,
    Unreadable,
}

// The row with one literal more; the row itself where its words have no such bit.
fn with_literal(row: Row, minus: bool, i: u32) -> Row
    ensures { result ≡ row_with minus i row }
{
    if minus {
        Row {
            positive: row.positive,
            negative: words::put(row.negative, i),
        }
    } else {
        Row {
            positive: words::put(row.positive, i),
            negative: row.negative,
        }
    }
}

// The clause at a place, its variables from 1 to n.
pub fn read_clause(text: &[u8], at: usize, n: u8) -> Clause
    ensures value { result ≡ first (clauses_from n text.now at) }
    ensures result_value { clause_code result ∷ clause_numbers result ≡ first_said (clauses_from n text.now at) }
{
    let Some((start, start_end)) = lexer::pieces::next_token(text, at) else {
        return Clause::End;
    };
    let mut row = Row {
        positive: 0,
        negative: 0,
    };
    let mut from = start;
    let mut to = start_end;
    // A loop: each token begins where the one before it ended; its `let .. else` is a form that document 01 requires.
    loop {
        let Some((minus, v)) = numbers::read_number(&text[from..to]) else {
            return Clause::Unreadable;
        };
        if v == 0 {
            return Clause::Read(row, start, to);
        }
        if (n as u32) < v {
            return Clause::Unreadable;
        }
        row = with_literal(row, minus, v - 1);
        let Some((next, next_end)) = lexer::pieces::next_token(text, to) else {
            break;
        };
        from = next;
        to = next_end;
    }
    Clause::Unreadable
}
