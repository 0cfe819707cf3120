// Unit propagation: whether a clause follows from rows, its negation being assumed and literals forced until some row is in conflict
// (document 02, "Proofs from other solvers").
#![tactic(auto)]

ghost use Rattle.std.specs.Prelude.{◌≡◌};
ghost use Rattle.scan.specs.Rules.{rows_of_words};
ghost use Rattle.propagation.specs.Propagation as Propagation;
ghost use Rattle.propagation.specs.Passes.{Apart, after_row, after_rows};

use words::Row;

// Where a pass over rows has come: whether a row is in conflict, and T and F with the literals forced so far.
#[derive(Clone, Copy)]
struct Propagated {
    conflict: bool,
    t: u32,
    f: u32,
}

// T and F after a row: its one free literal is made true.
fn force_row(row: Row, t: u32, f: u32) -> Propagated
    ensures { result ≡ after_row row t f }
{
    let judged = tables::judge(row, t, f);
    let satisfied = judged.satisfied;
    let variables = judged.variables;
    let same = Propagated {
        conflict: false,
        t,
        f,
    };
    if satisfied {
        return same;
    }
    if variables == 0 {
        return Propagated {
            conflict: true,
            t,
            f,
        };
    }
    if !words::single(variables) {
        return same;
    }
    let v = words::lowest(variables);
    if words::bit(row.positive, v) {
        return Propagated {
            conflict: false,
            t: words::put(t, v),
            f,
        };
    }
    Propagated {
        conflict: false,
        t,
        f: words::put(f, v),
    }
}

// T and F after rows, each of which is read with the literals that those before it forced; up to the first row in conflict.
fn force_rows(rows: &[u32], mut t: u32, mut f: u32) -> Propagated
    ensures { result ≡ after_rows (rows_of_words rows.now) t f }
{
    for &[positive, negative] in rows.as_chunks::<2>().0 {
        let next = force_row(Row { positive, negative }, t, f);
        if next.conflict {
            return next;
        }
        t = next.t;
        f = next.f;
    }
    Propagated {
        conflict: false,
        t,
        f,
    }
}

// Whether a conflict is reached from T and F on: pass after pass, until a row is in conflict or a pass forces nothing.
fn reaches(rows: &[u32], mut t: u32, mut f: u32) -> bool
    requires { Apart t f }
    ensures { result ≡ Propagation.reaches 33 (rows_of_words rows.now) t f }
{
    // A loop: a pass that forces nothing ends it, and no range or list says how many there are.
    loop {
        let next = force_rows(rows, t, f);
        if next.conflict {
            return true;
        }
        if (next.t == t) & (next.f == f) {
            return false;
        }
        t = next.t;
        f = next.f;
    }
}

// Whether the clause follows from the rows: it holds a variable in both signs, or its negation leads to a conflict.
pub fn follows(rows: &[u32], clause: Row) -> bool
    ensures { result ≡ Propagation.follows (rows_of_words rows.now) clause }
{
    if clause.positive & clause.negative != 0 {
        return true;
    }
    reaches(rows, clause.negative, clause.positive)
}
