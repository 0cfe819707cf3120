// The watch page: a run's model as pilots read it, a line a pilot, and the model read off a page again (document 02, "The watch page").
// Refusals: 12, 14, 25 and 26 where a page is made, 1, 25, 26 and 27 where one is read.
#![tactic(auto)]

ghost use Rattle.std.specs.Prelude.{◌≡◌, [], ◌∷◌, ◌*◌, ◌≤◌, ◌<◌, length, get_or, take};
ghost use Rattle.std.proofs.lemmas.List.Edits.{sets};
ghost use Rattle.refusals.specs.Checks.{outcome, given};
ghost use Rattle.refusals.specs.Numbers.{code_of, said};
ghost use Rattle.words.specs.Sameness.{same};
ghost use Rattle.verdicts.specs.Verdicts.{model_code, model_numbers};
ghost use Rattle.page.specs.Page.{aligned, pilot_line, page_of};
ghost use Rattle.page.specs.Reading as Reading;
ghost use Rattle.page.specs.Entries.{shape_checks, page_checks, page_after, read_page_checks, model_on};

use dimensions::Dimensions;
use refusals::Refusal;
use state::Run;

// The byte of a number of at most two digits in one of the three columns, from 0, in which it is right-aligned.
fn number_at(number: usize, column: usize) -> u8
    requires { (number < 100) × (column < 3) }
    ensures { result ≡ get_or (aligned number) column 0 }
{
    if column == 0 {
        return b' ';
    }
    if column == 2 {
        return 48 + (number % 10) as u8;
    }
    if number < 10 {
        return b' ';
    }
    48 + (number / 10) as u8
}

// The byte in a column of a pilot's line, both from 0.
fn byte_at(model: u32, watches: usize, pilot: usize, column: usize) -> u8
    requires { (watches ≤ 32) × (pilot < 32) × (column < 80) }
    ensures { result ≡ get_or (pilot_line watches model pilot) column 0 }
{
    if column < 3 {
        return number_at(pilot + 1, column);
    }
    if column == 79 {
        return b'\n';
    }
    let place = column - 3;
    if 2 * watches <= place {
        return b' ';
    }
    if place % 2 == 0 {
        return b' ';
    }
    let watch = place / 2;
    if words::bit(model, (pilot * watches + watch) as u32) {
        return b'#';
    }
    b'.'
}

// Writes the page of a model over the front of the bytes.
fn put_page(model: u32, pilots: usize, watches: usize, page: &mut [u8])
    requires { (pilots ≤ 32) × (watches ≤ 32) × (80 * pilots ≤ length page.old) }
    ensures { page.new ≡ sets page.old 0 (page_of pilots watches model) }
{
    for (q, byte) in page[..80 * pilots].iter_mut().enumerate() {
        *byte = byte_at(model, watches, q / 80, q % 80);
    }
}

// Whether the first bytes are the page of a model.
fn is_page(model: u32, pilots: usize, watches: usize, page: &[u8]) -> bool
    requires { (pilots ≤ 32) × (watches ≤ 32) × (80 * pilots ≤ length page.now) }
    ensures { result ≡ same (take (80 * pilots) page.now) (page_of pilots watches model) }
{
    // A loop: `all` over the same bytes read a page a third slower.
    for (q, byte) in page[..80 * pilots].iter().enumerate() {
        if *byte != byte_at(model, watches, q / 80, q % 80) {
            return false;
        }
    }
    true
}

// The byte at a place; 0 past the end.
fn byte(page: &[u8], at: usize) -> u8
    ensures { result ≡ get_or page.now at 0 }
{
    if at < page.len() { page[at] } else { 0 }
}

// Of n variables those whose mark is `#`.
fn marked(n: usize, watches: usize, page: &[u8]) -> u32
    requires { (n ≤ 32) × (0 < watches) × (watches ≤ 32) }
    ensures { result ≡ Reading.marked n watches page.now }
{
    let mut word = 0u32;
    for v in (0..n).rev() {
        let at = 80 * (v / watches) + (4 + 2 * (v % watches));
        word = (byte(page, at) == b'#') as u32 + 2 * word;
    }
    word
}

// Whether p pilots with s watches each are n variables, and the lent bytes are enough for their page: 25 or 26 if not. Numbers above n are
// no factors of it, and the product of two that are not above 32 is no machine word's remainder.
fn check_shape(n: usize, pilots: usize, watches: usize, size: usize) -> Result<(), Refusal>
    requires { (1 ≤ n) × (n ≤ 32) }
    ensures { result ≡ outcome (shape_checks n pilots watches size) }
{
    if 32 < pilots {
        return Err(Refusal::WatchCount);
    }
    if 32 < watches {
        return Err(Refusal::WatchCount);
    }
    if pilots * watches != n {
        return Err(Refusal::WatchCount);
    }
    if size < 80 * pilots {
        return Err(Refusal::PageBuffer);
    }
    Ok(())
}

// Writes the page of a model of n variables: 25 or 26 if it is refused, and the page is then as it was.
fn show_model(
    n: usize,
    model: u32,
    pilots: usize,
    watches: usize,
    page: &mut [u8],
) -> Result<(), Refusal>
    requires { (1 ≤ n) × (n ≤ 32) }
    ensures value { result ≡ outcome (shape_checks n pilots watches (length page.old)) }
    ensures page_after { page.new ≡ given result (sets page.old 0 (page_of pilots watches model)) (λ _. page.old) }
{
    check_shape(n, pilots, watches, page.len())?;
    put_page(model, pilots, watches, page);
    Ok(())
}

// Writes the page of a run's model, 80 bytes for each of p pilots with s watches, over the front of the lent bytes: 12, 14, 25 or 26 if it
// is refused, and the page is then as it was. Bytes past the page stay.
pub fn show(run: Run, pilots: usize, watches: usize, page: &mut [u8]) -> Result<(), Refusal>
    ensures value { result ≡ outcome (page_checks run pilots watches (length page.old)) }
    ensures page_after { page.new ≡ page_after run pilots watches page.old }
    ensures result_value { code_of result ∷ [] ≡ said (outcome (page_checks run pilots watches (length page.old))) [] }
{
    match verdicts::model(run) {
        Ok(model) => show_model(run.n as usize, model, pilots, watches, page),
        Err(refusal) => Err(refusal),
    }
}

// The model of n variables on a page of so many pilots with so many watches each: 1, 25, 26 or 27 if there is none. Bytes past the page are
// not looked at.
pub fn read(n: usize, pilots: usize, watches: usize, page: &[u8]) -> Result<u32, Refusal>
    ensures value { result ≡ model_on n pilots watches page.now }
    ensures result_value { model_code result ∷ model_numbers result ≡ said (outcome (read_page_checks n pilots watches page.now))
        (Reading.marked n watches page.now ∷ []) }
{
    if (n < 1) | (Dimensions::VARIABLES < n as u64) {
        return Err(Refusal::Variables);
    }
    check_shape(n, pilots, watches, page.len())?;
    let model = marked(n, watches, page);
    if !is_page(model, pilots, watches, page) {
        return Err(Refusal::PageForm);
    }
    Ok(model)
}
