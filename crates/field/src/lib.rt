// Arithmetic of GF(256) on bytes: doubling, product, inverse and powers of α = 2, each equal to its definition in specs/Field.antt.
// All of it is shifts, exclusive or and products with a bit: no branch depends on an element, and there is no table.

#![tactic(auto)]

ghost use Rattle.std.specs.Prelude.{◌≡◌};
ghost use Rattle.field.specs.Field.{double, mul, inverse, alpha};

// x times α: one bit up, and hexadecimal 11D added if the bit of value 256 is reached.
pub fn double(x: u8) -> u8
    ensures { result ≡ double x }
{
    let up = 2 * u16::from(x);
    (up ^ ((up >> 8) * 285)) as u8
}

// The product, over the bits of x from the highest on: double what there is, and add y if the bit is set.
pub fn multiply(x: u8, y: u8) -> u8
    ensures { result ≡ mul x y }
{
    let mut sum: u8 = 0;
    for k in (0..8u8).rev() {
        sum = double(sum) ^ (((x >> k) & 1) * y);
    }
    sum
}

// The inverse x^254 = x^2 · x^4 · .. · x^128; that of 0 is 0.
pub fn inverse(x: u8) -> u8
    ensures { result ≡ inverse x }
{
    let mut result: u8 = 1;
    let mut square = x;
    for _ in 0..7u8 {
        square = multiply(square, square);
        result = multiply(result, square);
    }
    result
}

// α^e. The powers repeat after 255, so at most 254 doublings serve.
pub fn alpha_power(e: usize) -> u8
    ensures { result ≡ alpha e }
{
    let count = e % 255;
    let mut result: u8 = 1;
    for _ in 0..count {
        result = double(result);
    }
    result
}
