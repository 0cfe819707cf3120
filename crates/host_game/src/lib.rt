// For hosts in C and Rust: who can force the roster of a QDIMACS text. The function is a thin call of a proved entry. A slice passes as a
// pointer and then a length, an array as a pointer. It returns 0 where the call is taken, else the refusal's number, and then it writes
// nothing.
#![tactic(auto)]

ghost use Rattle.std.specs.Prelude.{◌≡◌, ◌∷◌};
ghost use Rattle.lent.specs.Lent.{numbers_or};
ghost use Rattle.qdimacs.specs.Text.{game_text};
ghost use Rattle.game.specs.Game.{opening_numbers, winner_numbers, game_answer, game_code, game_numbers};

use game::Winner;

// A side, the first variable from 1 and its value; two zeros where the winner does not move first.
fn with_opening(side: u64, opening: Option<(u8, bool)>) -> [u64; 3]
    ensures { result ≡ side ∷ opening_numbers opening }
{
    match opening {
        Some((v, b)) => [side, v as u64 + 1, b as u64],
        None => [side, 0, 0],
    }
}

// The winner's three numbers.
fn numbers(winner: Winner) -> [u64; 3]
    ensures { result ≡ winner_numbers winner }
{
    match winner {
        Winner::Existential(opening) => with_opening(1, opening),
        Winner::Universal(opening) => with_opening(2, opening),
    }
}

// Who can force the roster of a text: the winner (1 existential, 2 universal), the first variable where the winner moves first, else 0, and
// its value; 5 (overlong), 1, 2, 21, 5 or 22 where it is refused, and then no number is written.
pub fn forkhemit_game(text: &[u8], answer: &mut [u64; 3]) -> u8
    ensures value { result ≡ game_code (game_answer (game_text text.now)) }
    ensures answer_after { answer.new ≡ numbers_or (game_numbers (game_answer (game_text text.now))) answer.old }
{
    match game::answer(text) {
        Ok(winner) => {
            let given = numbers(winner);
            *answer = given;
            return 0;
        }
        Err(refusal) => return u8::from(refusal),
    }
}
