// Results as numbers, and dimensions and verdicts from numbers.
#![tactic(auto)]

ghost use Rattle.std.specs.Prelude.{◌≡◌, [], ◌∷◌};
ghost use Rattle.refusals.specs.Checks.{outcome};
ghost use Rattle.refusals.specs.Numbers.{code_of, said};
ghost use Rattle.verdicts.specs.Verdicts.{verdict_number, model_word};
ghost use Rattle.codes.specs.Codes.{as_byte, host_dimensions, variable_checks, verdict_from};

use dimensions::Dimensions;
use refusals::Refusal;
use verdicts::Verdict;

// A number as a byte; 255, which no limit allows, for what no byte holds.
pub fn byte(x: u64) -> u8
    ensures { result ≡ as_byte x }
{
    if x < 255 {
        return x as u8;
    }
    255
}

// Whether there may be n variables: 1 if not.
pub fn check_variables(n: u8) -> Result<(), Refusal>
    ensures value { result ≡ outcome (variable_checks n) }
    ensures result_value { code_of result ∷ [] ≡ said (outcome (variable_checks n)) [] }
{
    if Dimensions::variables_outside(n as u64) {
        return Err(Refusal::Variables);
    }
    Ok(())
}

// Four numbers as dimensions, each as a byte: every entry judges them.
pub fn dimensions(n: u64, left: u64, right: u64, public: u64) -> Dimensions
    ensures { result ≡ host_dimensions n left right public }
{
    Dimensions {
        n: byte(n),
        left: byte(left),
        right: byte(right),
        public: byte(public),
    }
}

// 0 where the call was taken, else the refusal's number.
pub fn code(outcome: Result<(), Refusal>) -> u8
    ensures { result ≡ code_of outcome }
{
    match outcome {
        Ok(()) => 0,
        Err(refusal) => u8::from(refusal),
    }
}

// The number of a verdict.
pub fn verdict_number(verdict: Verdict) -> u64
    ensures { result ≡ verdict_number verdict }
{
    match verdict {
        Verdict::Unknown => 0,
        Verdict::Satisfiable(_) => 1,
        Verdict::Unsatisfiable => 2,
    }
}

// The model of a verdict as a word; 0 without one.
pub fn model_word(verdict: Verdict) -> u64
    ensures { result ≡ model_word verdict }
{
    match verdict {
        Verdict::Unknown => 0,
        Verdict::Satisfiable(model) => model as u64,
        Verdict::Unsatisfiable => 0,
    }
}

// The verdict of a number, with a model as a word.
pub fn verdict_from(number: u64, model: u64) -> Verdict
    ensures { result ≡ verdict_from number model }
{
    match number {
        1 => Verdict::Satisfiable((model & 0xffff_ffff) as u32),
        2 => Verdict::Unsatisfiable,
        _ => Verdict::Unknown,
    }
}
