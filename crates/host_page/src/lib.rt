// For hosts in C and Rust: the watch page of a run, and the model read off a page. Each function is a thin call of a proved entry. A slice
// passes as a pointer and then a length, an array as a pointer. It returns 0 where the call is taken, else the refusal's number, and then
// it writes nothing.
#![tactic(auto)]

ghost use Rattle.std.specs.Prelude.{◌≡◌, length};
ghost use Rattle.refusals.specs.Checks.{outcome};
ghost use Rattle.refusals.specs.Numbers.{code_of};
ghost use Rattle.verdicts.specs.Verdicts.{model_code, model_numbers};
ghost use Rattle.page.specs.Entries.{page_checks, page_after, model_on};
ghost use Rattle.stored.specs.Words.{run_in};
ghost use Rattle.lent.specs.Lent.{numbers_or};

// Writes the page of the model of the run in the lent words, 80 bytes a pilot, over the front of the lent bytes; 12, 14, 25 or 26 where it
// is refused, and then no byte changes.
pub fn forkhemit_page(run: &[u32; 101], pilots: u64, watches: u64, page: &mut [u8]) -> u8
    ensures value { result ≡ code_of (outcome (page_checks (run_in run.now) pilots watches (length page.old))) }
    ensures page_after { page.new ≡ page_after (run_in run.now) pilots watches page.old }
{
    let run = stored::load(*run);
    codes::code(page::show(run, pilots as usize, watches as usize, page))
}

// The model of n variables on a page, the variables that are true, as a word; 1, 25, 26 or 27 where it is refused, and then no number is
// written.
pub fn forkhemit_read_page(
    n: u64,
    pilots: u64,
    watches: u64,
    page: &[u8],
    model: &mut [u64; 1],
) -> u8
    ensures value { result ≡ model_code (model_on n pilots watches page.now) }
    ensures model_after { model.new ≡ numbers_or (model_numbers (model_on n pilots watches page.now)) model.old }
{
    match page::read(n as usize, pilots as usize, watches as usize, page) {
        Ok(word) => {
            *model = [word as u64];
            return 0;
        }
        Err(refusal) => return u8::from(refusal),
    }
}
