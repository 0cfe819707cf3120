// Who can force the roster: two sides fix variables in turn, the existential side for all rows true, the universal side against it.
#![tactic(auto)]

ghost use Rattle.std.specs.Prelude.{◌≡◌, true, not, ◌∷◌, ◌≤◌};
ghost use Rattle.words.specs.Sets.{bit};
ghost use Rattle.scan.specs.Rules.{rows_of_words, rule};
ghost use Rattle.truth.specs.Truth.{all_true};
ghost use Rattle.qdimacs.specs.Text.{game_text};
ghost use Rattle.qdimacs.specs.TurnsInWords.{turns_in};
ghost use Rattle.game.specs.Game.{forced, winner, winner_of, game_answer, game_code, game_numbers, game_said};
ghost use Rattle.game.specs.Cuts.{is_set, are_all_new, Apart, cut_of};

use refusals::Refusal;
use scan::Rule;
use tables::Tables;

// The side that can force its aim.
#[derive(Clone, Copy)]
pub enum Winner {
    Existential(Option<(u8, bool)>),
    Universal(Option<(u8, bool)>),
}

// The rule that applies to the rows of one table at T and F.
fn rule_at(rows: &[u32], t: u32, f: u32) -> Rule
    ensures { result ≡ rule 32 (rows_of_words rows.now) t f }
{
    let none = &rows[..0];
    scan::find_rule(
        Tables {
            left: rows,
            right: none,
            public: none,
        },
        t,
        f,
    )
}

// What the rows say of the game at T and F.
fn cut(rows: &[u32], t: u32, f: u32) -> Option<bool>
    ensures { result ≡ cut_of (rule 32 (rows_of_words rows.now) t f) }
{
    match rule_at(rows, t, f) {
        Rule::AllSatisfied => Some(true),
        Rule::Conflict => Some(false),
        Rule::Unit(_, _) => None,
        Rule::Choice(_) => None,
    }
}

// Whether all rows are true where T is true and the rest false.
fn all_true(rows: &[u32], t: u32) -> bool
    ensures { result ≡ all_true (bit t) (rows_of_words rows.now) }
{
    let Some(b) = cut(rows, t, !t) else {
        return false;
    };
    b
}

// Whether the existential side can force that all rows are true: from what the universal side can force with one variable fewer.
#[cycle(existential_universal)]
fn existential(rows: &[u32], turns: u64, unset: usize, t: u32, f: u32) -> bool
    requires f_value { are_all_new (turns_in turns unset) (is_set t f) ≡ true }
    requires apart { Apart t f }
    ensures { result ≡ forced (rows_of_words rows.now) (turns_in turns unset) (bit t) }
{
    if unset == 0 {
        return all_true(rows, t);
    }
    if let Some(b) = cut(rows, t, f) {
        return b;
    }
    let v = (turns / 2 % 16) as u32;
    let own = turns % 2 != 1;
    let first = !universal(rows, turns / 32, unset - 1, words::put(t, v), f);
    if first == own {
        return first;
    }
    !universal(rows, turns / 32, unset - 1, t, words::put(f, v))
}

// Whether the universal side can force that some row is not true: from what the existential side can force with one variable fewer.
#[cycle(existential_universal)]
fn universal(rows: &[u32], turns: u64, unset: usize, t: u32, f: u32) -> bool
    requires f_value { are_all_new (turns_in turns unset) (is_set t f) ≡ true }
    requires apart { Apart t f }
    ensures { result ≡ not (forced (rows_of_words rows.now) (turns_in turns unset) (bit t)) }
{
    if unset == 0 {
        return !all_true(rows, t);
    }
    if let Some(b) = cut(rows, t, f) {
        return !b;
    }
    let v = (turns / 2 % 16) as u32;
    let own = turns % 2 == 1;
    let first = !existential(rows, turns / 32, unset - 1, words::put(t, v), f);
    if first == own {
        return first;
    }
    !existential(rows, turns / 32, unset - 1, t, words::put(f, v))
}

// Who wins where the existential side can force its aim after the first variable's true, after its false, or not.
fn decide(variable: u8, universal: bool, first: bool, second: bool) -> Winner
    ensures { result ≡ winner variable universal first second }
{
    if universal {
        if first & second {
            return Winner::Existential(None);
        }
        return Winner::Universal(Some((variable, !first)));
    }
    if first | second {
        return Winner::Existential(Some((variable, first)));
    }
    Winner::Universal(None)
}

// The side that can force its aim from the first of n turns on, and the first variable's value.
fn play(rows: &[u32], turns: u64, n: usize) -> Winner
    requires le_n { 1 ≤ n }
    requires is_set_value { are_all_new (turns_in turns n) (is_set 0 0) ≡ true }
    ensures { result ≡ winner_of (rows_of_words rows.now) (turns_in turns n) }
{
    let v = (turns / 2 % 16) as u32;
    let first = existential(rows, turns / 32, n - 1, words::put(0, v), 0);
    let second = existential(rows, turns / 32, n - 1, 0, words::put(0, v));
    decide(v as u8, turns % 2 == 1, first, second)
}

// Who can force its aim in the game of a text, or 1, 2, 21, 5 or 22.
pub fn answer(text: &[u8]) -> Result<Winner, Refusal>
    ensures value { result ≡ game_answer (game_text text.now) }
    ensures result_value { game_code result ∷ game_numbers result ≡ game_said (game_text text.now) }
{
    let game = qdimacs::read(text)?;
    let words = game.words;
    let length = 2 * (game.rows as usize);
    let winner = play(&words[..length], game.turns, game.n as usize);
    Ok(winner)
}
