// What is kept beside a run (document 02, "Which rows does a variable touch"): how many rows are unsatisfied, and the sets of rows from
// which the rule is read.
#![tactic(auto)]

mod rows;
mod ruling;
mod setting;
mod surveying;

ghost use Rattle.std.specs.Prelude.{◌≡◌};
ghost use Rattle.tally.specs.Words.{tally_after};
ghost use Rattle.tally.specs.RowsSeen.{surveyed};
ghost use Rattle.tally.specs.Ruling.{rule_by, tally_by};

use scan::Rule;

// How many rows are unsatisfied, whether one of them has no free literal, the set of them, and the variables of the forced literals,
// positive and negative. Row r is bit r mod 64 of word r / 64.
#[derive(Clone, Copy)]
pub struct Tally {
    pub number: u32,
    pub conflict: bool,
    pub unsatisfied: [u64; 6],
    pub positive: u32,
    pub negative: u32,
}

// The tally after a free variable is set, from T and F as they were: only the variable's own rows are read. `words` are the rows, two words
// each. No variable is 32 or more: with such a v the tally stays as it is.
pub fn set_literal(
    words: &[u32; 768],
    index: &[u64; 384],
    t: u32,
    f: u32,
    v: u32,
    positive: bool,
    tally: Tally,
) -> Tally
    ensures { result ≡ tally_after words.now index.now t f v positive tally }
{
    if 32 <= v {
        return tally;
    }
    let unset = !words::put(t | f, v);
    let i = v as usize;
    if positive {
        return setting::after(words, index, i, 32 + i, unset, tally);
    }
    setting::after(words, index, 32 + i, i, unset, tally)
}

// The tally of a number of rows at T and F: the sets from the index alone, and then only the rows with at most one free variable are read.
pub fn survey(words: &[u32; 768], index: &[u64; 384], rows: usize, t: u32, f: u32) -> Tally
    ensures { result ≡ surveyed words.now index.now rows t f }
{
    let w0 = surveying::rows_left(index, rows, 0, t, f);
    let w1 = surveying::rows_left(index, rows, 1, t, f);
    let w2 = surveying::rows_left(index, rows, 2, t, f);
    let w3 = surveying::rows_left(index, rows, 3, t, f);
    let w4 = surveying::rows_left(index, rows, 4, t, f);
    let w5 = surveying::rows_left(index, rows, 5, t, f);
    let unsatisfied = [
        w0.unsatisfied,
        w1.unsatisfied,
        w2.unsatisfied,
        w3.unsatisfied,
        w4.unsatisfied,
        w5.unsatisfied,
    ];
    let few = [w0.few, w1.few, w2.few, w3.few, w4.few, w5.few];
    rows::gather(words, !(t | f), 0, 0, unsatisfied, few)
}

// The rule of the giant step that applies at T and F, read off their tally: rules 1 and 2 from the number and the conflict, rule 3 from the
// forced literals, rule 4 from the sets of the variables' literals and of the unsatisfied rows.
pub fn rule(index: &[u64; 384], t: u32, f: u32, tally: Tally) -> Rule
    ensures { result ≡ rule_by index.now t f tally }
{
    let unsatisfied = tally.unsatisfied;
    if tally.number == 0 {
        return Rule::AllSatisfied;
    }
    if tally.conflict {
        return Rule::Conflict;
    }
    let forced = tally.positive | tally.negative;
    if forced != 0 {
        let variable = words::lowest(forced);
        return Rule::Unit(variable, words::bit(tally.positive, variable));
    }
    Rule::Choice(ruling::chosen(index, !(t | f), unsatisfied))
}

// The tally after a rule, from T and F as they were and as they are then: a set variable leads to its own rows only, and after a removed
// level all sets are made again.
pub fn after_rule(
    words: &[u32; 768],
    rows: usize,
    index: &[u64; 384],
    t: u32,
    f: u32,
    next_t: u32,
    next_f: u32,
    rule: Rule,
    tally: Tally,
) -> Tally
    ensures { result ≡ tally_by words.now rows index.now t f next_t next_f rule tally }
{
    match rule {
        Rule::AllSatisfied => tally,
        Rule::Conflict => survey(words, index, rows, next_t, next_f),
        Rule::Unit(variable, positive) => {
            set_literal(words, index, t, f, variable, positive, tally)
        }
        Rule::Choice(variable) => set_literal(words, index, t, f, variable, true, tally),
    }
}
