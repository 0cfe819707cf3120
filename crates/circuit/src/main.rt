// The circuit program: reads n and the three row counts on standard input, and prints the text of their circuit, or the refusal alone.
#![tactic(auto)]

// Reads the line and writes what `listing` gives for it. A write that fails ends the program, with status 0 as every answer does: nothing
// is printed after it.
fn main(rt: HostRuntime) {
    let mut line = [0u8; 101];
    let mut bytes = [0u8; listing::ROOM];
    let n = input::read_line(&mut rt.reader(), &mut line);
    let length = listing::list(&line[..n], &mut bytes);
    rt.write_all(&bytes[..length]).ok();
}
