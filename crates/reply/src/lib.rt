// The pair program's one function: two stations' texts, that of the public rest rules and the line of standard input go in, what is printed
// comes out.
#![tactic(auto)]

ghost use Rattle.std.specs.Prelude.{◌≡◌, min};
ghost use Rattle.text.specs.Texts.{text_of};
ghost use Rattle.answers.specs.Printed.{solved_text};
ghost use Rattle.dimacs.specs.ThreeTexts.{all_read};
ghost use Rattle.lines.specs.Numbers.{budget_of};
ghost use Rattle.reply.specs.Reply.{dimensions_of, answered, reply_text};

use dimacs::TextTables;
use dimensions::Dimensions;
use refusals::Refusal;
use solver::Answer;
use tables::Tables;
use text::Text;

// n and the row counts of tables that were read.
pub fn dimensions_of(tables: TextTables) -> Dimensions
    ensures { result ≡ dimensions_of (all_read tables) }
{
    Dimensions {
        n: tables.n,
        left: tables.left_rows,
        right: tables.right_rows,
        public: tables.public_rows,
    }
}

// The budgeted run over tables that were read, or 8.
fn answer(tables: TextTables, line: &[u8]) -> Result<Answer, Refusal>
    ensures { result ≡ answered (all_read tables) (budget_of line.now) }
{
    let budget = lines::read_budget(line)?;
    let d = dimensions_of(tables);
    let left = tables.left;
    let right = tables.right;
    let public = tables.public;
    indexed::solve_indexed(
        d,
        Tables {
            left: &left,
            right: &right,
            public: &public,
        },
        budget,
    )
}

// An answer or a refusal as it is printed.
pub fn print(n: u8, given: Result<Answer, Refusal>) -> Text
    ensures { result ≡ text_of (solved_text (min n 32) given) }
{
    match given {
        Ok(answer) => answers::answer_text(n, answer),
        Err(refusal) => answers::refusal_text(refusal),
    }
}

// What the pair program prints. For a file that it cannot read it hands over 65,537 bytes, an overlong text, which is 5.
pub fn reply(left: &[u8], right: &[u8], public: &[u8], line: &[u8]) -> Text
    ensures { result ≡ text_of (reply_text left.now right.now public.now line.now) }
{
    let tables = match dimacs::read_tables(left, right, public) {
        Ok(tables) => tables,
        Err(refusal) => return answers::refusal_text(refusal),
    };
    print(tables.n, answer(tables, line))
}
