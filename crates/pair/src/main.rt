// The pair program: reads left.cnf, right.cnf, public.cnf and the budget on standard input, each whole before the next, and prints the
// reply.
#![tactic(auto)]

ghost use Rattle.std.specs.Prelude.{◌≡◌, ◌≤◌, length, take};
ghost use Rattle.input.specs.Files.{FilesWithin};

use input::Files;
use std::rt;

// The small buffer's size, for three texts. The large one is for longer texts alone: touching its pages took a tenth of the whole time.
const SHORT: usize = 12288;

// Prints the reply to the three files and a line. A write that fails ends the program with status 0, as every answer does.
fn print(rt: &impl Print, buf: &[u8], files: Files, line: &[u8])
    requires { FilesWithin files (length buf.now) }
{
    let left = files.left;
    let right = files.right;
    let public = files.public;
    let text = reply::reply(&buf[..left], &buf[left..right], &buf[right..public], line);
    let bytes = text.bytes;
    let length = text.length;
    rt.write_all(&bytes[..length]).ok();
}

// Reads the line and prints the reply. An overlong file is answered at once, whatever the files past it and the line: they are empty then.
fn answer(rt: &(impl Input + Print), buf: &[u8], files: Files)
    requires { FilesWithin files (length buf.now) }
{
    if files.whole < 3 {
        return print(rt, buf, files, b"");
    }
    let mut line = [0u8; 101];
    let n = input::read_line(&mut rt.reader(), &mut line);
    print(rt, buf, files, &line[..n]);
}

// Copies bytes to the front of a buffer.
fn put_front(bytes: &[u8], buf: &mut [u8])
    requires { length bytes.now ≤ length buf.old }
    ensures { take (length bytes.now) buf.new ≡ bytes.now }
{
    buf[..bytes.len()].copy_from_slice(bytes);
}

// Reads on in the large buffer what the small one has no room for. Compiled into its caller it would bring the large buffer there.
#[inline(never)]
fn read_long<R: rt::Files + Input + Print>(
    rt: &R,
    start: &[u8],
    begun: Files,
    file: &mut Option<R::File>,
)
    requires { length start.now ≤ 12288 }
{
    let mut long = [0u8; input::ROOM];
    put_front(start, &mut long);
    let files = input::read_on(rt, begun, file, &mut long);
    answer(rt, &long, files);
}

// Reads the files into the small buffer, and goes on in the large one where a file does not open or they fill it.
fn main(rt: HostRuntime) {
    let mut short = [0u8; SHORT];
    let (begun, mut file) = input::begin(&rt);
    let files = input::read_on(&rt, begun, &mut file, &mut short);
    if files.whole == 3 {
        return answer(&rt, &short, files);
    }
    read_long(&rt, &short, files, &mut file);
}
