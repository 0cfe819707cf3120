// The lowest row that shows a rule: one in conflict, or one that forces the very literal taken.
ghost use Rattle.std.specs.Prelude.{◌≡◌, ◌++◌, ◌≤◌, length};
ghost use Rattle.occurrences.specs.Index.{holds_literal};
ghost use Rattle.scan.specs.Rules.{rows_of_words};
ghost use Rattle.explained.specs.Explanation as Explanation;
ghost use Rattle.explained.specs.Search.{found_or};

use scan::Rule;
use tables::Tables;
use words::Row;

// Whether the row holds the variable with this sign.
fn holds(row: Row, variable: u32, positive: bool) -> bool
    ensures { result ≡ holds_literal positive variable row }
{
    if positive {
        return words::bit(row.positive, variable);
    }
    words::bit(row.negative, variable)
}

// Whether the row shows the rule at T and F.
fn shows(row: Row, rule: Rule, t: u32, f: u32) -> bool
    ensures { result ≡ Explanation.shows 32 t f rule row }
{
    let judged = tables::judge(row, t, f);
    let satisfied = judged.satisfied;
    let literals = judged.literals;
    match rule {
        Rule::AllSatisfied => false,
        Rule::Conflict => !satisfied & (literals == 0),
        Rule::Unit(variable, positive) => {
            let is_set = words::bit(t | f, variable);
            !satisfied & (literals == 1) & !is_set & holds(row, variable, positive)
        }
        Rule::Choice(_) => false,
    }
}

// The number found earlier; where it is 0, that of the lowest row that shows the rule in one more table, whose first row's is `first`.
fn search(earlier: u32, words: &[u32], first: u32, rule: Rule, t: u32, f: u32) -> u32
    requires words_len_bound { length words.now ≤ 510 }
    requires le_first { 1 ≤ first }
    requires first_bound { first ≤ 511 }
    ensures { result ≡ found_or earlier (Explanation.lowest_from first (Explanation.shows 32 t f rule) (rows_of_words words.now)) }
{
    if earlier != 0 {
        return earlier;
    }
    let (rows, _) = words.as_chunks::<2>();
    let shown = rows.iter().position(|&[positive, negative]| shows(
        Row { positive, negative },
        rule,
        t,
        f,
    ));
    let Some(i) = shown else {
        return 0;
    };
    first + i as u32
}

// The number of the lowest row that shows the rule, over all tables; 0 where none does.
pub(crate) fn lowest_row(tables: Tables<'_>, rule: Rule, t: u32, f: u32) -> u32
    requires left_len_bound { length tables.left.now ≤ 510 }
    requires right_len_bound { length tables.right.now ≤ 510 }
    requires public_len_bound { length tables.public.now ≤ 510 }
    ensures { result ≡ Explanation.lowest_row (Explanation.shows 32 t f rule)
        (rows_of_words tables.entry.left.now ++ (rows_of_words tables.entry.right.now ++ rows_of_words tables.entry.public.now)) }
{
    let right_first = 1 + (tables.left.len() / 2) as u32;
    let public_first = right_first + (tables.right.len() / 2) as u32;
    let in_left = search(0, tables.left, 1, rule, t, f);
    let found = search(in_left, tables.right, right_first, rule, t, f);
    search(found, tables.public, public_first, rule, t, f)
}
