//! The bytes of images, made on demand.

ghost use Rattle.std.specs.Prelude.{◌≡◌, ℕ, ◌+◌, ◌*◌, ◌%◌, ◌^◌, ◌<◌, length};
ghost use Rattle.thing_service.specs.Generator as generator;

const FACTOR: u64 = 6_364_136_223_846_793_005;

const SUMMAND: u64 = 1_442_695_040_888_963_407;

/// Fills a buffer with the bytes of a seed's image from byte `at` on.
pub(crate) fn fill(out: &mut [u8], seed: u64, at: u64)
    ensures { out.new ≡ generator.bytes seed at (length out.old) }
{
    let mut state = ahead(seed, at);
    let mut i = 0;
    while i < out.len() {
        state = next(state);
        out[i] = (state >> 56) as u8;
        i += 1;
    }
}

/// The state so many steps behind the seed. Two steps of x ↦ f x + s are one of x ↦ f² x + (f s + s), so the steps are
/// halved time and again.
fn ahead(seed: u64, steps: u64) -> u64
    ensures { result ≡ generator.state seed steps }
{
    let mut state = seed;
    let mut factor = FACTOR;
    let mut summand = SUMMAND;
    let mut left = steps;
    while left > 0 {
        if left % 2 == 1 {
            state = step(factor, summand, state);
        }
        summand = step(factor, summand, summand);
        factor = factor.wrapping_mul(factor);
        left /= 2;
    }
    state
}

#[tactic(auto, unfolding(crate::specs::Generator::next))]
fn next(state: u64) -> u64
    ensures { result ≡ generator.next state }
{
    step(FACTOR, SUMMAND, state)
}

fn step(factor: u64, summand: u64, state: u64) -> u64
    ensures { result ≡ (factor * state + summand) % 2 ^ 64 }
{
    factor.wrapping_mul(state).wrapping_add(summand)
}
