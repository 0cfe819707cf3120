// Proofs from other solvers: a DRAT text checked against the tables by reverse unit propagation (document 02, "Proofs from other solvers").
#![tactic(auto)]

mod rup;

ghost use Rattle.std.specs.Prelude.{◌≡◌, [], ◌∷◌, ◌≤◌, length, Ok};
ghost use Rattle.refusals.specs.Checks.{outcome};
ghost use Rattle.refusals.specs.Numbers.{code_of, said};
ghost use Rattle.lexer.specs.Pieces.{lines_from};
ghost use Rattle.tables.specs.Tables.{lent_words, words_in};
ghost use Rattle.tables.specs.Rows.{rows_from, rows_of};
ghost use Rattle.tables.specs.Acceptance.{table_checks};
ghost use Rattle.drat_line.specs.Lines.{line_said};
ghost use Rattle.drat_line.specs.declared.Said.TheVariants.{Added, Deleted};
ghost use Rattle.drat.specs.Text.{proof_lines, few_additions, proof_text_checks, proof_checks};
ghost use Rattle.drat.specs.Checking.{Reads, Room, Ends};

use crate::rup::{Progress, Stage};
use dimensions::Dimensions;
use drat_line::Said;
use lexer::kinds::Kind;
use refusals::Refusal;
use tables::Tables;
use words::Row;

// A text under way: how far the proof has come, how many additions were read, and whether a line was malformed or an addition too many.
#[derive(Clone, Copy)]
struct Checker {
    progress: Progress,
    additions: usize,
    malformed: bool,
}

// A clause added.
fn take_addition(words: &mut [u32], checker: Checker, clause: Row) -> Checker
    requires { Room checker words.old }
    ensures reads { Reads (Added clause) checker words.old result words.new }
    ensures room { Room result words.new }
{
    let progress = checker.progress;
    let additions = checker.additions;
    if 256 <= additions {
        return Checker {
            progress,
            additions,
            malformed: true,
        };
    }
    let next = rup::add_line(words, progress, clause);
    Checker {
        progress: next,
        additions: additions + 1,
        malformed: checker.malformed,
    }
}

// A clause deleted; once the proof is decided that changes nothing.
fn take_deletion(words: &mut [u32], checker: Checker, clause: Row) -> Checker
    requires { Room checker words.old }
    ensures reads { Reads (Deleted clause) checker words.old result words.new }
    ensures room { Room result words.new }
{
    let progress = checker.progress;
    let stage = progress.stage;
    let left = rup::delete(words, progress.count, clause);
    Checker {
        progress: Progress { count: left, stage },
        additions: checker.additions,
        malformed: checker.malformed,
    }
}

// One line of the text.
fn take_line(words: &mut [u32], checker: Checker, line: &[u8], n: u8) -> Checker
    requires n_bound { n ≤ 32 }
    requires room { Room checker words.old }
    ensures reads { Reads (line_said n line.now) checker words.old result words.new }
    ensures room_2 { Room result words.new }
{
    let said = drat_line::read_line(line, n);
    match said {
        Said::Nothing => checker,
        Said::Added(clause) => take_addition(words, checker, clause),
        Said::Deleted(clause) => take_deletion(words, checker, clause),
        Said::Malformed => {
            let progress = checker.progress;
            Checker {
                progress,
                additions: checker.additions,
                malformed: true,
            }
        }
    }
}

// What a text that is read whole comes to: 18, then 19, then 20.
fn outcome_of(checker: Checker) -> Result<(), Refusal>
    requires { checker.additions ≤ 256 }
    ensures { Ends checker result }
{
    if checker.malformed {
        return Err(Refusal::ProofText);
    }
    let progress = checker.progress;
    let stage = progress.stage;
    match stage {
        Stage::Checking => Err(Refusal::NoEmptyClause),
        Stage::Accepted => Ok(()),
        Stage::Failed => Err(Refusal::NotFollowing),
    }
}

// The lines of a text against the rows in front of the words.
fn check_lines(words: &mut [u32], count: usize, text: &[u8], n: u8) -> Result<(), Refusal>
    requires n_bound { n ≤ 32 }
    requires count_bound { count ≤ 384 }
    requires in_bounds { 1280 ≤ length words.old }
    ensures { result ≡ outcome (proof_text_checks (rows_from words.old 0 count)
        (few_additions (proof_lines n (lines_from text.now 0)))) }
{
    let progress = Progress {
        count,
        stage: Stage::Checking,
    };
    let mut checker = Checker {
        progress,
        additions: 0,
        malformed: false,
    };
    let mut at = 0;
    while at <= text.len() {
        let end = lexer::kinds::find(text, at, Kind::LineFeed);
        checker = take_line(words, checker, &text[at..end], n);
        at = end + 1;
    }
    outcome_of(checker)
}

// The rows of accepted tables in front of the words: how many they are.
fn fill(words: &mut [u32], d: Dimensions, tables: Tables<'_>) -> usize
    requires public_value { outcome (table_checks d (words_in tables)) ≡ Ok tt }
    requires in_bounds { 1280 ≤ length words.old }
    ensures result_after { rows_from words.new 0 result ≡ rows_of d (lent_words tables) }
    ensures upper_bound { result ≤ 384 }
{
    let first = rup::append(words, 0, tables.left, d.left as usize);
    let second = rup::append(words, first, tables.right, d.right as usize);
    rup::append(words, second, tables.public, d.public as usize)
}

// Whether the text proves that no assignment makes all rows of the tables true: if not, the tables' 1, 2, 4 or 3, then 18, 19 or 20. The
// tables have 384 rows at most, and 256 are added.
pub fn check_proof(d: Dimensions, tables: Tables<'_>, text: &[u8]) -> Result<(), Refusal>
    ensures value { result ≡ outcome (proof_checks d (lent_words tables) text.now) }
    ensures result_value { code_of result ∷ [] ≡ said (outcome (proof_checks d (lent_words tables) text.now)) [] }
{
    let accepted = tables::accept(d, tables);
    accepted?;
    if 65536 < text.len() {
        return Err(Refusal::ProofText);
    }
    let mut words = [0u32; 1280];
    let rows = fill(&mut words, d, tables);
    check_lines(&mut words, rows, text, d.n)
}
