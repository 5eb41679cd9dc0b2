// The plot lister of document 01. Standard input is read to its end, or to one byte past the longest valid input, and the text that the
// library makes of it is written to standard output.

#![tactic(auto)]

ghost use Rattle.std.specs.Prelude.{◌≤◌, length, take, IfOk};
ghost use Rattle.listing.specs.Theorems.{longest_text, enough_input, AnswersAll};

use std::io;
use std::io::{Input, Read};

// Reads until the buffer is full or the input ends: how many bytes were put at its start.
fn read_full(rt: &impl Input, buf: &mut [u8]) -> io::Result<usize>
    ensures { IfOk result (λ n. n ≤ length buf.new) }
{
    let mut input = rt.reader();
    let mut done = 0;
    while done < buf.len() {
        let n = input.read(&mut buf[done..])?;
        if n == 0 {
            break;
        }
        done += n;
    }
    Ok(done)
}

// The first bytes of `out`, as many as it answers, are the whole text for an input of which the first `count` bytes stand in the buffer.
fn list_whole(buffer: &[u8], count: usize, out: &mut [u8]) -> usize
    requires count_in_bounds { count ≤ length buffer.now }
    requires enough_input_in_bounds { enough_input ≤ length buffer.now }
    requires longest_text_in_bounds { longest_text ≤ length out.old }
    ensures upper_bound { result ≤ length out.old }
    ensures answers_all { AnswersAll buffer.now count (take result out.new) }
{
    listing::list(&buffer[..count], out)
}

// No contract can name what is read and what is written: this one asks for the room.
fn list_input(rt: &(impl Input + Print), input: &mut [u8], out: &mut [u8]) -> io::Result<()>
    requires enough_input_in_bounds { enough_input ≤ length input.old }
    requires longest_text_in_bounds { longest_text ≤ length out.old }
{
    let n = read_full(rt, input)?;
    let length = list_whole(input, n, out);
    rt.write_all(&out[..length])
}

fn main(rt: HostRuntime) -> io::Result<()> {
    // `enough_input` bytes: five, 16 blocks of 255 cells, and one more, so that a longer input is seen to be longer (theorem `enough_input_lem` of the
    // listing crate).
    let mut input = [0u8; 4086];
    // `longest_text` bytes: no text is longer (theorem `text_fits` of the listing crate).
    let mut out = [0u8; 22968];
    list_input(&rt, &mut input, &mut out)
}
