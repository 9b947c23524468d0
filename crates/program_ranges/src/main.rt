// Reads a profile file from standard input, and prints the ranges after its cuts, or the first refusal's number.
#![tactic(auto)]

ghost use Rattle.std.specs.Prelude.{◌≤◌, length, IfOk};

use std::io;
use std::io::{Read, Stdin, Write};

// As many bytes as the input has and the buffer holds. Answers how many. `Read` of std has no method whose clause bounds that count by a slice.
fn read_full(input: &mut Stdin, buffer: &mut [u8]) -> io::Result<usize>
    ensures { IfOk result (λ n. n ≤ length buffer.new) }
{
    let mut length = 0;
    while length < buffer.len() {
        let more = input.read(&mut buffer[length..])?;
        if more == 0 {
            break;
        }
        length += more;
    }
    Ok(length)
}

fn main(rt: HostRuntime) -> io::Result<()> {
    // One byte more than the longest file that is not refused for its length. Of a longer input these bytes are enough (`printed-long`, file_printing's proofs/Longer).
    let mut file = [0u8; file_format::MOST_FILE_BYTES + 1];
    let mut input = rt.stdin();
    let length = read_full(&mut input, &mut file)?;
    io::copy(&mut input, &mut io::sink())?;
    let mut text = [0u8; file_printing::MOST_TEXT_BYTES];
    let end = file_printing::print_ranges(&file[..length], &mut text);
    rt.stdout().write_all(&text[..end])
}
