// Random streams that don't meet.
ghost use Rattle.std.specs.Prelude.{◌≡◌};
ghost use Rattle.rand_xoshiro.specs.Xoshiro256.{jump_polynomial, long_jump_polynomial};
ghost use Rattle.nvme_clock.specs.Streams.{jumps, purpose_index, seeded, stream_state};

use rand_core::SeedableRng;
use rand_xoshiro::Xoshiro256PlusPlus;

/// What a queue draws a stream for.
#[derive(Clone, Copy, Debug, PartialEq, Eq)]
pub enum Purpose {
    Arrivals,
    Services,
    Sizes,
    Offsets,
}

// The number of jumps to a purpose's stream.
fn index(purpose: Purpose) -> u64
    ensures { result ≡ purpose_index purpose }
{
    match purpose {
        Purpose::Arrivals => 0,
        Purpose::Services => 1,
        Purpose::Sizes => 2,
        Purpose::Offsets => 3,
    }
}

// The generator of a seed.
fn seeded(seed: u64) -> Xoshiro256PlusPlus
    ensures { result ≡ seeded seed }
{
    Xoshiro256PlusPlus::seed_from_u64(seed)
}

// Jumps over 2^192 words so many times.
fn skip_queues(rng: &mut Xoshiro256PlusPlus, count: u64)
    ensures { rng.new ≡ jumps long_jump_polynomial count rng.old }
{
    for _queue in 0..count {
        rng.long_jump();
    }
}

// Jumps over 2^128 words so many times.
fn skip_purposes(rng: &mut Xoshiro256PlusPlus, count: u64)
    ensures { rng.new ≡ jumps jump_polynomial count rng.old }
{
    for _purpose in 0..count {
        rng.jump();
    }
}

/// The stream of a queue for a purpose: xoshiro256++ that SplitMix64 seeds from `seed`, after a long jump for each queue
/// before it and a jump for each purpose before it. Streams of one seed don't meet before 2^128 words.
pub fn stream(seed: u64, queue: u16, purpose: Purpose) -> Xoshiro256PlusPlus
    ensures { result ≡ stream_state seed queue purpose }
{
    let mut rng = seeded(seed);
    skip_queues(&mut rng, u64::from(queue));
    skip_purposes(&mut rng, index(purpose));
    rng
}
