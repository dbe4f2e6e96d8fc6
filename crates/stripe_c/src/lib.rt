// The two calls of the stripe for C, as include/stripe.h declares them. Each calls the library's function of the same name, whose
// promise is its own.
#![tactic(auto)]

ghost use Rattle.std.specs.Prelude.{◌≡◌, length};
ghost use Rattle.stripe.specs.Calls.{make_code, make_buffer, recover_code, recover_buffer};

// Makes the parities of the stripe, and answers 0. Answers 1 where d is not 2 to 16, parities not 1
// or 2, or b not 1 to 4,096, else 2 where the stripe is not d + parities blocks long, and stores
// nothing.
#[unsafe(no_mangle)]
pub extern "C" fn stripe_make_parity(d: u32, parities: u32, b: u32, stripe: &mut [u8]) -> u32
    ensures value { result ≡ make_code d parities b (length stripe.old) }
    ensures stripe_after { stripe.new ≡ make_buffer d parities b stripe.old }
{
    stripe::stripe_make_parity(d, parities, b, stripe)
}

// Recovers the members x and y of the stripe from the others, and answers 0; the same member named
// twice is one missing member. Answers 1 and 2 as stripe_make_parity does, else 6 where x or y is
// not below d + parities, else 11 where x and y differ and there is one parity, and stores nothing.
#[unsafe(no_mangle)]
pub extern "C" fn stripe_recover(
    d: u32,
    parities: u32,
    b: u32,
    x: u32,
    y: u32,
    stripe: &mut [u8],
) -> u32
    ensures value { result ≡ recover_code d parities b x y (length stripe.old) }
    ensures stripe_after { stripe.new ≡ recover_buffer d parities b x y stripe.old }
{
    stripe::stripe_recover(d, parities, b, x, y, stripe)
}
