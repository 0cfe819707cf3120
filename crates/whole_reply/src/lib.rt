// The one function of the program that goes through the whole budget: two stations' texts, that of the public rest rules and the line of
// standard input go in, what is printed comes out.
#![tactic(auto)]

ghost use Rattle.std.specs.Prelude.{◌≡◌, ◌≤◌, Ok, Err};
ghost use Rattle.refusals.specs.Checks.{outcome, given};
ghost use Rattle.tables.specs.Tables.{lent_words, words_in};
ghost use Rattle.tables.specs.Acceptance.{table_checks};
ghost use Rattle.text.specs.Texts.{text_of};
ghost use Rattle.reply.specs.Reply.{dimensions_of, tables_in};
ghost use Rattle.whole_budget.specs.Applications.{whole_answer};
ghost use Rattle.dimacs.specs.ThreeTexts.{all_read};
ghost use Rattle.lines.specs.Numbers.{budget_of};
ghost use Rattle.whole_reply.specs.WholeReply.{ceiling_checks, whole_answered, whole_text};

use dimacs::TextTables;
use dimensions::Dimensions;
use refusals::Refusal;
use solver::Answer;
use tables::Tables;
use text::Text;

// Three words for each gate of the greatest ceiling that is served, 5,461 gates.
const WORDS: usize = 16383;

// No circuit of such a ceiling has more inputs.
const INPUTS: usize = 255;

// Nor more wires: its inputs and its gates.
const WIRES: usize = 5716;

// The run through the whole budget over accepted tables, or 7.
fn go_through(d: Dimensions, tables: Tables<'_>, budget: u64) -> Result<Answer, Refusal>
    requires public_value { outcome (table_checks d (words_in tables)) ≡ Ok tt }
    requires budget_bound { budget ≤ 65535 }
    ensures { result ≡ given (outcome (ceiling_checks d)) (Ok (whole_answer d (lent_words tables) budget)) Err }
{
    let mut gates = [0u32; WORDS];
    let mut bytes = [0u8; INPUTS];
    let mut wires = [0u8; WIRES];
    whole_budget::solve_whole(d, tables, budget, &mut gates, &mut bytes, &mut wires)
}

// The run over tables that were read, or 8, 23 or 7.
fn answer(tables: TextTables, line: &[u8]) -> Result<Answer, Refusal>
    requires { outcome (table_checks (dimensions_of (all_read tables)) (tables_in (all_read tables))) ≡ Ok tt }
    ensures { result ≡ whole_answered (all_read tables) (budget_of line.now) }
{
    let budget = lines::read_budget(line)?;
    if whole_budget::MOST_BUDGET < budget {
        return Err(Refusal::WholeBudget);
    }
    let d = reply::dimensions_of(tables);
    let left = tables.left;
    let right = tables.right;
    let public = tables.public;
    go_through(
        d,
        Tables {
            left: &left,
            right: &right,
            public: &public,
        },
        budget,
    )
}

// What the program prints. For a file that it cannot read it hands over 65,537 bytes, an overlong text, which is 5.
pub fn reply_whole(left: &[u8], right: &[u8], public: &[u8], line: &[u8]) -> Text
    ensures { result ≡ text_of (whole_text left.now right.now public.now line.now) }
{
    let tables = match dimacs::read_tables(left, right, public) {
        Ok(tables) => tables,
        Err(refusal) => return answers::refusal_text(refusal),
    };
    reply::print(tables.n, answer(tables, line))
}
