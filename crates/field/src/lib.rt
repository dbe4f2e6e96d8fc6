// The field of 256 elements in which RAID-6 parity is computed: a byte is an element, the sum of
// two is their exclusive or, and products go by the polynomial 11D hexadecimal (H. P. Anvin, "The
// mathematics of RAID-6").
//
// The contracts cite `specs/Field.antt`, whose definitions name no table. The laws that a client's
// proofs cite stand in `proofs/Laws.antt`.
#![tactic(auto)]

mod tables;

ghost use Rattle.std.specs.Prelude.{◌≡◌, ◌≤◌, ◌<◌, length};
ghost use Rattle.field.specs.Field.{double, pow2, times, inverse, Multiples, SameFrom};

use tables::{LOGARITHMS, POWERS};

// Twice a.
pub fn twice(a: u8) -> u8
    ensures { result ≡ double a }
{
    ((a % 128) * 2) ^ ((a / 128) * 29)
}

// The product of a and b: the power of 2 to the sum of their logarithms, counted round 255.
pub fn mul(a: u8, b: u8) -> u8
    ensures { result ≡ times a b }
{
    if a == 0 || b == 0 {
        return 0;
    }
    let n = logarithm(a) + logarithm(b);
    if n < 255 {
        return POWERS[n];
    }
    POWERS[n - 255]
}

// What a is multiplied by to give 1; 0 for 0, which has no inverse.
pub fn inv(a: u8) -> u8
    ensures { result ≡ inverse a }
{
    if a == 0 {
        return 0;
    }
    POWERS[255 - logarithm(a)]
}

// Fills the first 256 bytes of t with c times each byte. The rest of t stays.
pub fn fill_multiples(c: u8, t: &mut [u8])
    requires { 256 ≤ length t.old }
    ensures multiples { Multiples c t.new }
    ensures same_from { SameFrom 256 t.old t.new }
{
    for (k, entry) in t[..256].iter_mut().enumerate() {
        *entry = mul(c, k as u8);
    }
}

// The n below 255 with 2 to the power n equal to a.
fn logarithm(a: u8) -> usize
    requires a_nonzero { 0 < a }
    ensures upper_bound { result < 255 }
    ensures result_value { pow2 result ≡ a }
{
    LOGARITHMS[a as usize] as usize
}
