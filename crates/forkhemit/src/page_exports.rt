// The exports of `host_page`, for C: each calls the function of that name there, and states its clauses.
ghost use Rattle.std.specs.Prelude.{◌≡◌, length};
ghost use Rattle.refusals.specs.Checks.{outcome};
ghost use Rattle.refusals.specs.Numbers.{code_of};
ghost use Rattle.verdicts.specs.Verdicts.{model_code, model_numbers};
ghost use Rattle.page.specs.Entries.{page_checks, page_after, model_on};
ghost use Rattle.stored.specs.Words.{run_in};
ghost use Rattle.lent.specs.Lent.{numbers_or};

// Writes the page of the model of the run in the lent words, 80 bytes a pilot, over the front of the lent bytes; 12, 14, 25 or 26 where it
// is refused, and then no byte changes.
#[unsafe(no_mangle)]
pub extern "C" fn forkhemit_page(run: &[u32; 101], pilots: u64, watches: u64, page: &mut [u8]) -> u8
    ensures value { result ≡ code_of (outcome (page_checks (run_in run.now) pilots watches (length page.old))) }
    ensures page_after { page.new ≡ page_after (run_in run.now) pilots watches page.old }
{
    host_page::forkhemit_page(run, pilots, watches, page)
}

// The model of n variables on a page, the variables that are true, as a word; 1, 25, 26 or 27 where it is refused, and then no number is
// written.
#[unsafe(no_mangle)]
pub extern "C" fn forkhemit_read_page(
    n: u64,
    pilots: u64,
    watches: u64,
    page: &[u8],
    model: &mut [u64; 1],
) -> u8
    ensures value { result ≡ model_code (model_on n pilots watches page.now) }
    ensures model_after { model.new ≡ numbers_or (model_numbers (model_on n pilots watches page.now)) model.old }
{
    host_page::forkhemit_read_page(n, pilots, watches, page, model)
}
