// What the pair program prints, composed whole.
#![tactic(auto)]

ghost use Rattle.std.specs.Prelude.{◌≡◌, ◌+◌, ◌≤◌, min};
ghost use Rattle.text.specs.Texts.{text_of, appended};
ghost use Rattle.answers.specs.Printed as Printed;
ghost use Rattle.answers.specs.Printed.{verdict_text, answer_text, refusal_text};

use refusals::Refusal;
use solver::Answer;
use text::Text;
use verdicts::Verdict;

// The text with one more variable, negative where it is false.
fn literal(text: Text, variable: u32, positive: bool) -> Text
    ensures { result ≡ appended text (Printed.literal_text variable positive) }
{
    if positive {
        text.append(b" ").decimal(variable as u64)
    } else {
        text.append(b" -").decimal(variable as u64)
    }
}

// The text, then the literals of the first n variables.
fn literals(text: Text, n: u32, model: u32) -> Text
    requires { n ≤ 32 }
    ensures { result ≡ appended text (Printed.literals n 0 model) }
{
    let mut out = text;
    for i in 0..n {
        out = literal(out, i + 1, words::bit(model, i));
    }
    out
}

// The text, then the verdict.
fn verdict(text: Text, n: u32, given: Verdict) -> Text
    requires { n ≤ 32 }
    ensures { result ≡ appended text (verdict_text n given) }
{
    match given {
        Verdict::Satisfiable(model) => {
            literals(text.append(b"s SATISFIABLE\nv"), n, model).append(b" 0\n")
        }
        Verdict::Unsatisfiable => text.append(b"s UNSATISFIABLE\n"),
        Verdict::Unknown => text.append(b"s UNKNOWN\n"),
    }
}

// The answer of a run over n variables; a model's variables are those of a word, 32 at most.
pub fn answer_text(n: u8, given: Answer) -> Text
    ensures { result ≡ text_of (answer_text (min n 32) given) }
{
    let steps = Text::empty()
        .append(b"c steps ")
        .decimal(given.count)
        .append(b"\n");
    verdict(steps, (n as u32).min(32), given.verdict)
}

// A refusal as the pair program prints it.
pub fn refusal_text(given: Refusal) -> Text
    ensures { result ≡ text_of (refusal_text given) }
{
    text::refused_line(given).append(b"s UNKNOWN\n")
}
