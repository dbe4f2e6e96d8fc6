// Exports for tests and benchmarks: the field's product, and parity made in a whole array. They are
// no part of the library's interface.
#![tactic(auto)]

ghost use Rattle.std.specs.Prelude.{◌≡◌, ◌%◌, length};
ghost use Rattle.field.specs.Field.{times};
ghost use Rattle.stripe.specs.below.Refusals.{answer_of};
ghost use Rattle.probe.specs.Probe.{all_code, all_buffer, bad_shape};

use stripe::Refusal;
use stripe::places::Layout;

// The product of the low bytes of a and b.
#[unsafe(no_mangle)]
pub extern "C" fn probe_mul(a: u32, b: u32) -> u32
    ensures { result ≡ times (a % 256) (b % 256) }
{
    field::mul((a % 256) as u8, (b % 256) as u8) as u32
}

// Makes the parities of every stripe of an array kept by member, of s stripes, and answers 0. Answers
// 1 where d is not 2 to 16, parities not 1 or 2, s not 1 to 65,536 or b not 1 to 4,096, else 2 where
// the array is not (d + parities) × s blocks long, and stores nothing.
#[unsafe(no_mangle)]
pub extern "C" fn probe_make_parity_all(
    d: u32,
    parities: u32,
    s: u32,
    b: u32,
    array: &mut [u8],
) -> u32
    ensures value { result ≡ all_code d parities s b (length array.old) }
    ensures array_after { array.new ≡ all_buffer d parities s b array.old }
{
    let checked = check_all(d, parities, s, b, array.len());
    if checked.is_ok() {
        let fixed = Layout {
            number: 0,
            d,
            parities,
        };
        stripe::parity::make_all_parity(array, fixed, s as usize, b as usize);
    }
    stripe::answer(checked)
}

// Whether the parities of an array of n bytes can be made.
fn check_all(d: u32, parities: u32, s: u32, b: u32, n: usize) -> Result<(), Refusal>
    ensures { answer_of result ≡ all_code d parities s b n }
{
    if bad_shape(d, parities, s, b) {
        return Err(Refusal::Measures);
    }
    if n != (d as usize + parities as usize) * s as usize * b as usize {
        return Err(Refusal::Length);
    }
    Ok(())
}

// Whether a measure is out of its range.
fn bad_shape(d: u32, parities: u32, s: u32, b: u32) -> bool
    ensures { result ≡ bad_shape d parities s b }
{
    stripe::bad_measures(d, parities, b) || !(1..=65536).contains(&s)
}
