// Weights of variables over the rows, and the two-sided Jeroslow-Wang choice (document 02, "Weighing the short rows"). Weights are 64-bit
// floats, and every sum is exact: all are whole numbers of 2 to the power minus 32, below 2 to the power 53 of these.
ghost use Rattle.std.specs.Prelude.{◌≡◌, ◌++◌, ◌-◌, ◌^◌, ◌≤◌, length, get_or};
ghost use Rattle.std.specs.Float.Ieee as Ieee;
ghost use Rattle.std.specs.Float.{nan};
ghost use Rattle.scan.specs.Rules.{rows_of_words};
ghost use Rattle.weighted.specs.Weights as Weights;
ghost use Rattle.weighted.specs.Weights.{greatest, weight, weighted_rule};
ghost use Rattle.weighted.specs.Floats.{scaled, Weighs, Raised, Adds};

use scan::Rule;
use tables::Tables;
use words::Row;

// 2 to the power minus k, by its bit pattern: the exponent's field is 1023 - k.
pub(crate) fn power(k: u8) -> f64
    requires { k ≤ 32 }
    ensures { result ≡ scaled (2 ^ (32 - k)) }
{
    f64::from_bits((1023 - (k as u64)) << 52)
}

// Adds gain to the weight of each variable of the word.
pub(crate) fn raise(weights: &mut [f64; 32], word: u32, gain: f64)
    ensures { Raised weights.old word gain weights.new }
{
    let mut left = word;
    // A loop: std has no iterator over the bits of a word.
    while left != 0 {
        let i = words::lowest(left) as usize;
        weights[i] += gain;
        left &= left - 1;
    }
}

// Adds the weights of a table's rows: an unsatisfied row adds 2 to the power minus its number of free literals to each free variable that
// it holds.
fn weigh_rows(weights: &mut [f64; 32], rows: &[u32], t: u32, f: u32)
    ensures { Adds (weight 32 (rows_of_words rows.now) t f) weights.old weights.new }
{
    for &[positive, negative] in rows.as_chunks::<2>().0 {
        let judged = tables::judge(Row { positive, negative }, t, f);
        if !judged.satisfied {
            raise(weights, judged.variables, power(judged.literals));
        }
    }
}

// The weights of the variables over the rows of all tables.
fn weigh(tables: Tables<'_>, t: u32, f: u32) -> [f64; 32]
    requires left_len_bound { length tables.left.now ≤ 256 }
    requires right_len_bound { length tables.right.now ≤ 256 }
    requires public_len_bound { length tables.public.now ≤ 256 }
    ensures { Weighs result (weight 32
        (rows_of_words tables.entry.left.now ++ (rows_of_words tables.entry.right.now ++ rows_of_words tables.entry.public.now)) t f) }
{
    let mut weights = [0.0f64; 32];
    weigh_rows(&mut weights, tables.left, t, f);
    weigh_rows(&mut weights, tables.right, t, f);
    weigh_rows(&mut weights, tables.public, t, f);
    weights
}

// The variable of the greatest weight, the lowest among equals.
pub(crate) fn heaviest(weights: [f64; 32]) -> u32
    ensures { result ≡ greatest (λ i j. Ieee.lt (get_or weights i nan) (get_or weights j nan)) 32 }
{
    let mut best = 0;
    for (i, &weight) in weights.iter().enumerate() {
        if weights[best] < weight {
            best = i;
        }
    }
    best as u32
}

// The heaviest variable over the rows of all tables.
fn choose(tables: Tables<'_>, t: u32, f: u32) -> u32
    requires left_len_bound { length tables.left.now ≤ 256 }
    requires right_len_bound { length tables.right.now ≤ 256 }
    requires public_len_bound { length tables.public.now ≤ 256 }
    ensures { result ≡ Weights.heaviest (weight 32
        (rows_of_words tables.entry.left.now ++ (rows_of_words tables.entry.right.now ++ rows_of_words tables.entry.public.now)) t f) 32 }
{
    heaviest(weigh(tables, t, f))
}

// The rule that applies to the rows of all tables at T and F, with the heaviest variable where it is rule 4: the rows are weighed then
// only.
pub(crate) fn find_rule(tables: Tables<'_>, t: u32, f: u32) -> Rule
    requires left_len_bound { length tables.left.now ≤ 256 }
    requires right_len_bound { length tables.right.now ≤ 256 }
    requires public_len_bound { length tables.public.now ≤ 256 }
    ensures { result ≡ weighted_rule 32
        (rows_of_words tables.entry.left.now ++ (rows_of_words tables.entry.right.now ++ rows_of_words tables.entry.public.now)) t f }
{
    let found = scan::find_rule(tables, t, f);
    match found {
        Rule::AllSatisfied => found,
        Rule::Conflict => found,
        Rule::Unit(_, _) => found,
        Rule::Choice(_) => Rule::Choice(choose(tables, t, f)),
    }
}
