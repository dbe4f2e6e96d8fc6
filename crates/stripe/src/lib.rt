// Parity over stripes of d data blocks and two parities, P and Q, or one, P, of b bytes each: made,
// and missing blocks recovered from the others.
//
// The two calls, `stripe_make_parity` and `stripe_recover`, take one stripe in a buffer of its own,
// in the order data, P and, of two parities, Q, and refuse what they cannot work on; the crate
// `stripe_c` exports them for C. Below them, for arrays that are kept by member: `parity` makes
// parity where the blocks stand, `solve` recovers a missing block from the others, each in the array
// or in a log, `blocks` copies blocks by number and `places` knows where a block stands. The
// contracts cite `specs/`: `Parity.antt` has the mathematics, `Calls.antt` what the two calls answer
// and leave.
#![tactic(auto)]

pub mod blocks;
pub mod parity;
pub mod places;
mod recover;
mod rows;
pub mod solve;
mod weights;

ghost use Rattle.std.specs.Prelude.{◌≡◌, length};
ghost use Rattle.stripe.specs.Calls.{make_code, make_buffer, recover_code, recover_buffer, bad_measures, members_code, bad_member, too_many};
ghost use Rattle.stripe.specs.below.Refusals.{answer_of};

// Why a call is refused, in the order in which the reasons are tried; the number is the one that C
// knows the refusal by.
#[derive(Clone, Copy, Debug, PartialEq, Eq)]
pub enum Refusal {
    // A measure is out of its range.
    Measures = 1,
    // The buffer is not as long as the measures say.
    Length = 2,
    // The stripe has no such member.
    Member = 6,
    // Two members are missing, and there is one parity.
    TwoMissing = 11,
}

// What a call answers by what its check found: 0, or the refusal's number.
pub fn answer(checked: Result<(), Refusal>) -> u32
    ensures { result ≡ answer_of checked }
{
    match checked {
        Ok(()) => 0,
        Err(refusal) => refusal as u32,
    }
}

// Makes the parities of the stripe, and answers 0. Answers 1 where d is not 2 to 16, parities not 1
// or 2, or b not 1 to 4,096, else 2 where the stripe is not d + parities blocks long, and stores
// nothing.
pub fn stripe_make_parity(d: u32, parities: u32, b: u32, stripe: &mut [u8]) -> u32
    ensures value { result ≡ make_code d parities b (length stripe.old) }
    ensures stripe_after { stripe.new ≡ make_buffer d parities b stripe.old }
{
    let checked = check_stripe(d, parities, b, stripe.len());
    if checked.is_ok() {
        parity::make_own_parity(stripe, d as usize, parities as usize, b as usize);
    }
    answer(checked)
}

// Recovers the members x and y of the stripe from the others, and answers 0; the same member named
// twice is one missing member. Answers 1 and 2 as stripe_make_parity does, else 6 where x or y is
// not below d + parities, else 11 where x and y differ and there is one parity, and stores nothing.
pub fn stripe_recover(d: u32, parities: u32, b: u32, x: u32, y: u32, stripe: &mut [u8]) -> u32
    ensures value { result ≡ recover_code d parities b x y (length stripe.old) }
    ensures stripe_after { stripe.new ≡ recover_buffer d parities b x y stripe.old }
{
    let checked = check_recovery(d, parities, b, x, y, stripe.len());
    if checked.is_ok() {
        recover::recover(
            stripe,
            d as usize,
            parities as usize,
            b as usize,
            x as usize,
            y as usize,
        );
    }
    answer(checked)
}

// Whether the parities of a stripe of n bytes can be made.
fn check_stripe(d: u32, parities: u32, b: u32, n: usize) -> Result<(), Refusal>
    ensures { answer_of result ≡ make_code d parities b n }
{
    if bad_measures(d, parities, b) {
        return Err(Refusal::Measures);
    }
    if n != (d as usize + parities as usize) * b as usize {
        return Err(Refusal::Length);
    }
    Ok(())
}

// Whether d is not 2 to 16, parities not 1 or 2, or b not 1 to 4,096.
pub fn bad_measures(d: u32, parities: u32, b: u32) -> bool
    ensures { result ≡ bad_measures d parities b }
{
    !(2..=16).contains(&d) || !(1..=2).contains(&parities) || !(1..=4096).contains(&b)
}

// Whether the members x and y of a stripe of n bytes can be recovered.
fn check_recovery(d: u32, parities: u32, b: u32, x: u32, y: u32, n: usize) -> Result<(), Refusal>
    ensures { answer_of result ≡ recover_code d parities b x y n }
{
    check_stripe(d, parities, b, n)?;
    check_members(d, parities, x, y)
}

// Whether the members x and y can be recovered, where the rest is not refused.
fn check_members(d: u32, parities: u32, x: u32, y: u32) -> Result<(), Refusal>
    ensures { answer_of result ≡ members_code d parities x y }
{
    if bad_member(d, parities, x) || bad_member(d, parities, y) {
        return Err(Refusal::Member);
    }
    if too_many(parities, x, y) {
        return Err(Refusal::TwoMissing);
    }
    Ok(())
}

// Whether a stripe of d data blocks and so many parities has no member x.
fn bad_member(d: u32, parities: u32, x: u32) -> bool
    ensures { result ≡ bad_member d parities x }
{
    d as usize + parities as usize <= x as usize
}

// Whether x and y are different members, where there is one parity.
fn too_many(parities: u32, x: u32, y: u32) -> bool
    ensures { result ≡ too_many parities x y }
{
    parities < 2 && x != y
}
