// The exports of `host_game`, for C: each calls the function of that name there, and states its clauses.
ghost use Rattle.std.specs.Prelude.{◌≡◌};
ghost use Rattle.lent.specs.Lent.{numbers_or};
ghost use Rattle.qdimacs.specs.Text.{game_text};
ghost use Rattle.game.specs.Game.{game_answer, game_code, game_numbers};

// Who can force the roster of a text: the winner (1 existential, 2 universal), the first variable where the winner moves first, else 0, and
// its value; 5 (overlong), 1, 2, 21, 5 or 22 where it is refused, and then no number is written.
#[unsafe(no_mangle)]
pub extern "C" fn forkhemit_game(text: &[u8], answer: &mut [u64; 3]) -> u8
    ensures value { result ≡ game_code (game_answer (game_text text.now)) }
    ensures answer_after { answer.new ≡ numbers_or (game_numbers (game_answer (game_text text.now))) answer.old }
{
    host_game::forkhemit_game(text, answer)
}
