// A line of standard input and the bytes of three files, as programs read them.
#![tactic(auto)]

ghost use Rattle.std.specs.Prelude.{◌≡◌, ◌+◌, ◌≤◌, ◌<◌, length, take, drop, [], IfSome, None, Some};
ghost use Rattle.std.specs.Io.KnownBytes.{Consumes};
ghost use Rattle.io.specs.Counts.{IsPrefixLen};
ghost use Rattle.input.specs.Line.{line_of};
ghost use Rattle.input.specs.Files.{FilesWithin, files_within, Gives, IsWhole};

use std::io::Read;
use std::{fs, rt};

// Reads a byte at a time up to the first LF, and no more; a line that does not fit or end is left without its LF, which is 8. A read that
// fails ends the line as the input's end does. `consumed` says that no byte past these was read.
pub fn read_line<I: Read>(input: &mut I, buf: &mut [u8]) -> usize
    ensures prefix_len { IsPrefixLen result buf.new }
    ensures buf_after { line_of (take result buf.new) ≡ take result buf.new }
    ensures buf_unchanged { drop result buf.new ≡ drop result buf.old }
    ensures consumed { Consumes (I.remaining input.old) (I.remaining input.new) (take result buf.new) }
{
    let mut done = 0;
    // A loop: the input says when it ends.
    while done < buf.len() {
        let mut one = [0u8; 1];
        match input.read(&mut one) {
            Ok(0) | Err(_) => return done,
            Ok(_) => {}
        }
        buf[done] = one[0];
        done += 1;
        if one[0] == b'\n' {
            return done;
        }
    }
    done
}

// One read of a file, or none where it fails or the file is not open.
fn read_some<F: Read>(file: &mut Option<F>, buf: &mut [u8]) -> Option<usize>
    ensures bound { IfSome result (λ n. n ≤ length buf.new) }
    ensures given { IfSome result (λ n. Gives F.remaining file.old file.new (take n buf.new)) }
    ensures end { 0 < length buf.old → result ≡ Some 0 → IsWhole F.remaining file.new [] }
{
    match file {
        Some(file) => file.read(buf).ok(),
        None => None,
    }
}

// Reads on from index `from` until buf is full or the input ends, and answers how many bytes of buf are then filled. Where a read fails it
// answers all of buf: a text cut short would be another text. An input that ended or failed is closed. So reading on after a failure fails
// too, and no file has standard input's number when the line is read. `whole` says that an answer short of buf is never a text cut short.
fn fill<F: Read + Drop>(file: &mut Option<F>, buf: &mut [u8], from: usize) -> usize
    requires { from ≤ length buf.old }
    ensures prefix_len { IsPrefixLen result buf.new }
    ensures lower_bound { from ≤ result }
    ensures buf_unchanged { take from buf.new ≡ take from buf.old }
    ensures whole { result < length buf.new → IsWhole F.remaining file.old (drop from (take result buf.new)) }
    ensures closed { result < length buf.new → file.new ≡ None }
{
    let mut done = from;
    // A loop: how many bytes one read gives is known only after it.
    while done < buf.len() {
        match read_some(file, &mut buf[done..]) {
            Some(0) => {
                *file = None;
                return done;
            }
            Some(n) => done += n,
            None => {
                *file = None;
                return buf.len();
            }
        }
    }
    done
}

// ---- three files in one buffer

// One byte more than a text may have.
const OVERLONG: usize = 65537;

// Room for three texts of that length.
pub const ROOM: usize = 196611;

// How far the three files were read into one buffer, one after the other: how many were read whole, and where each file's bytes end. A file
// that was not read is empty.
#[derive(Clone, Copy)]
pub struct Files {
    pub whole: usize,
    pub left: usize,
    pub right: usize,
    pub public: usize,
}

// Opens a file by its number from 0. It gives none for a file that does not open and for a fourth file: every read then fails.
fn open<R: rt::Files>(rt: &R, number: usize) -> Option<R::File> {
    if number == 0 {
        return fs::open(rt, "left.cnf").ok();
    }
    if number == 1 {
        return fs::open(rt, "right.cnf").ok();
    }
    if number == 2 {
        return fs::open(rt, "public.cnf").ok();
    }
    None
}

// Nothing read yet.
fn nothing_read() -> Files
    ensures { FilesWithin result 0 }
{
    Files {
        whole: 0,
        left: 0,
        right: 0,
        public: 0,
    }
}

// Opens the first file, of which nothing is read yet.
pub fn begin<R: rt::Files>(rt: &R) -> (Files, Option<R::File>)
    ensures { FilesWithin result.0 0 }
{
    (nothing_read(), open(rt, 0))
}

// Whether the files' ends are in order and in a buffer of this length.
fn is_within(files: Files, room: usize) -> bool
    ensures { result ≡ files_within files room }
{
    (files.left <= files.right) & ((files.right <= files.public) & (files.public <= room))
}

// Where the file that is open starts.
fn start(files: Files) -> usize
    requires { FilesWithin files files.public }
    ensures { result ≤ files.public }
{
    if files.whole == 0 {
        return 0;
    }
    if files.whole == 1 {
        return files.left;
    }
    files.right
}

// Where the file that is open has to end: one byte past the longest text, or with the buffer.
fn limit(files: Files, room: usize) -> usize
    requires { FilesWithin files room }
    ensures upper_bound { result ≤ room }
    ensures lower_bound { files.public ≤ result }
{
    let at = start(files);
    if room - at < OVERLONG {
        return room;
    }
    if OVERLONG < files.public - at {
        return room;
    }
    at + OVERLONG
}

// The file that is open ends at a place so far.
fn end_at(files: Files, end: usize) -> Files
    requires { FilesWithin files end }
    ensures files_within { FilesWithin result end }
    ensures public_value { result.public ≡ end }
    ensures whole_value { result.whole ≡ files.whole }
{
    let whole = files.whole;
    if whole == 0 {
        return Files {
            whole,
            left: end,
            right: end,
            public: end,
        };
    }
    if whole == 1 {
        return Files {
            whole,
            left: files.left,
            right: end,
            public: end,
        };
    }
    Files {
        whole,
        left: files.left,
        right: files.right,
        public: end,
    }
}

// The file that was open is read whole, and the next one is opened.
fn open_next<R: rt::Files>(rt: &R, files: Files, file: &mut Option<R::File>) -> Files
    requires { files.whole < 3 }
    ensures whole_value { result.whole ≡ files.whole + 1 }
    ensures left_value { (result.left ≡ files.left) × (result.right ≡ files.right) × (result.public ≡ files.public) }
{
    let whole = files.whole + 1;
    *file = open(rt, whole);
    Files {
        whole,
        left: files.left,
        right: files.right,
        public: files.public,
    }
}

// Reads on where `begun` ends, each file whole before the next, up to a file that fills the buffer or is overlong, as one that cannot be
// read counts: `whole` is then less than 3. Where `begun` does not fit into buf nothing is read. `file` is the one that is open.
pub fn read_on<R: rt::Files>(
    rt: &R,
    begun: Files,
    file: &mut Option<R::File>,
    buf: &mut [u8],
) -> Files
    ensures files_within { FilesWithin result (length buf.new) }
    ensures buf_unchanged { take begun.public buf.new ≡ take begun.public buf.old }
{
    if !is_within(begun, buf.len()) {
        *file = None;
        return nothing_read();
    }
    let mut files = begun;
    // A loop: a file that fills its room ends it, and the place where the next begins is returned.
    while files.whole < 3 {
        let end = limit(files, buf.len());
        let n = fill(file, &mut buf[..end], files.public);
        files = end_at(files, n);
        if n == end {
            return files;
        }
        files = open_next(rt, files, file);
    }
    files
}
