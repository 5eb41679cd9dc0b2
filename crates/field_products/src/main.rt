// Works out the product of every two bytes of GF(256), and the inverse of every byte, and prints one checksum for each byte's 256 products and one for
// the inverses. The file stdout has the expected lines: they were computed apart from this library, by a carry-less product of two bytes followed by long
// division by hexadecimal 11D, and inverses by trying every byte (0, which has none, gives 0).

#![tactic(auto)]

use std::io;

// The products of x with what `operand` makes of the bytes from 0 to 255: the checksum is 31 times what it was, plus the product, modulo 65,521.
fn checksum<F: Fn(u8) -> u8>(x: u8, operand: F) -> u64
    requires { F.IsAlwaysCallable operand }
{
    let mut sum: u64 = 0;
    for y in 0..=u8::MAX {
        sum = (31 * sum + u64::from(field::multiply(x, operand(y)))) % 65521;
    }
    sum
}

fn main(rt: HostRuntime) -> io::Result<()> {
    for x in 0..=u8::MAX {
        println!(rt; "{x} * every byte: {}", checksum(x, |y| y))?;
    }
    println!(rt; "1 / every byte: {}", checksum(1, field::inverse))
}
