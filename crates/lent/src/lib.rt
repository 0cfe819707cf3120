// Rows, a text and a run written into the buffers that hosts lend.
#![tactic(auto)]

ghost use Rattle.std.specs.Prelude.{◌≡◌, ◌*◌, take};
ghost use Rattle.lent.specs.Lent.{front, stored_if};

use refusals::Refusal;
use state::Run;
use text::Text;

// Writes the words over the front of the buffer, as many as it has room for.
fn put_words(words: &[u32], lent: &mut [u32])
    ensures { lent.new ≡ front words.now lent.old }
{
    let end = words.len().min(lent.len());
    lent[..end].copy_from_slice(&words[..end]);
}

// Writes the words of a table's rows over the front of the buffer.
pub fn put_rows(words: [u32; 256], rows: u8, lent: &mut [u32])
    ensures { lent.new ≡ front (take (2 * rows) words) lent.old }
{
    let end = (2 * rows as usize).min(256);
    put_words(&words[..end], lent);
}

// Writes the text over the front of the bytes.
pub fn put_text(text: Text, lent: &mut [u8; 256])
    ensures { lent.new ≡ front (take text.length text.bytes) lent.old }
{
    let whole = text.bytes;
    let end = text.length.min(256);
    lent[..end].copy_from_slice(&whole[..end]);
}

// Writes the run where the call was taken.
pub fn store_if(outcome: Result<(), Refusal>, run: Run, lent: &mut [u32; 101])
    ensures { lent.new ≡ stored_if outcome run lent.old }
{
    match outcome {
        Ok(()) => *lent = stored::words(run),
        Err(_) => {}
    }
}
