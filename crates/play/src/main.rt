// Reads a trace file from standard input and prints what becomes of its requests.
#![tactic(auto)]

ghost use Rattle.std.specs.Prelude.{◌≡◌, ◌≤◌, length, IfOk};

use std::io;
use std::io::Read;

// No trace file is as long as the buffer, so that what is longer gets the refusal of its header or of its length.
fn main(rt: HostRuntime) -> io::Result<()> {
    let mut file = file_buffer();
    let got = read_full(&mut rt.stdin(), &mut file)?;
    let mut out = player::buffer();
    let length = player::answer(&file[..got], &mut out);
    print(&rt, &out, length)
}

// A buffer of fixed size, since nothing allocates.
fn file_buffer() -> [u8; 65536]
    ensures { 65536 ≡ length result }
{
    [0; 65536]
}

// Reads until the buffer is full or the input ends, and answers how many bytes it put at the buffer's start.
// Counted by a `while`: the library's read_exact fails where the input is shorter, and its read_to_end wants a buffer that allocates.
fn read_full<R: Read>(reader: &mut R, file: &mut [u8]) -> io::Result<usize>
    ensures { IfOk result (λ got. got ≤ length file.new) }
{
    let mut got = 0;
    while got < file.len() {
        let n = reader.read(&mut file[got..])?;
        if n == 0 {
            return Ok(got);
        }
        got += n;
    }
    Ok(got)
}

// All of it in one piece.
fn print(rt: &impl Print, out: &[u8], length: usize) -> io::Result<()> {
    if length <= out.len() {
        rt.write_all(&out[..length])?;
    }
    Ok(())
}
