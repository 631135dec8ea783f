// A store on standard input, its stream (DDP_034) on standard output; nothing if the store is broken.
#![tactic(auto)]

ghost use Rattle.std.specs.Prelude.{◌≤◌, IfOk, length};

use std::io;
use std::io::Read;

// The longest store: header, 64 entries and 60,000 stream bytes. What follows it is not looked at.
const LONGEST: usize = 60516;

// Reads to the end of the input or of the buffer; how many bytes the front of the buffer then holds. No method of `std`
// does it: `read_exact` refuses an input that ends before the buffer, and `read_to_end` needs a Vec, which is on the
// heap. So the loop stays; it goes on by as many bytes as were read.
fn read_full(input: &mut impl Read, buffer: &mut [u8]) -> io::Result<usize>
    ensures { IfOk result (λ n. n ≤ length buffer.new) }
{
    let mut at = 0;
    while at < buffer.len() {
        let n = input.read(&mut buffer[at..])?;
        if n == 0 {
            break;
        }
        at += n;
    }
    Ok(at)
}

fn main(rt: HostRuntime) -> io::Result<()> {
    let mut buffer = [0u8; LONGEST];
    let n = read_full(&mut rt.stdin(), &mut buffer)?;
    rt.write_all(store::read::stream(&buffer[..n]))
}
