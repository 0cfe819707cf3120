// The program that goes through the whole budget: reads left.cnf, right.cnf, public.cnf and the budget on standard input, each whole before
// the next, and prints the reply.
#![tactic(auto)]

ghost use Rattle.std.specs.Prelude.{◌≤◌, length};
ghost use Rattle.input.specs.Files.{FilesWithin};

use input::Files;

// Prints the reply to the three files and a line. A write that fails ends the program with status 0, as every answer does.
fn print(rt: &impl Print, buf: &[u8], files: Files, line: &[u8])
    requires { FilesWithin files (length buf.now) }
{
    let left = files.left;
    let right = files.right;
    let public = files.public;
    let text = whole_reply::reply_whole(&buf[..left], &buf[left..right], &buf[right..public], line);
    let bytes = text.bytes;
    let length = text.length;
    rt.write_all(&bytes[..length]).ok();
}

// Reads the line and prints the reply. An overlong file is answered at once, whatever the files past it and the line: they are empty then.
fn answer(rt: &(impl Input + Print), buf: &[u8], files: Files)
    requires { FilesWithin files (length buf.now) }
{
    if files.whole < 3 {
        return print(rt, buf, files, b"");
    }
    let mut line = [0u8; 101];
    let n = input::read_line(&mut rt.reader(), &mut line);
    print(rt, buf, files, &line[..n]);
}

// Reads the files, then the rest.
fn main(rt: HostRuntime) {
    let mut buf = [0u8; input::ROOM];
    let (begun, mut file) = input::begin(&rt);
    let files = input::read_on(&rt, begun, &mut file, &mut buf);
    answer(&rt, &buf, files);
}
