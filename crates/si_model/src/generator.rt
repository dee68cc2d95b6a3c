//! A generator of numbers.

ghost use Rattle.std.specs.Prelude.{◌≡◌, ◌<◌};
ghost use Rattle.si_model.specs.Generator.{next_state, pick};

/// The generator's state after a state. It is linear congruential, modulo 2^64.
pub fn next_state(state: u64) -> u64
    ensures { result ≡ next_state state }
{
    state
        .wrapping_mul(6_364_136_223_846_793_005)
        .wrapping_add(1_442_695_040_888_963_407)
}

/// A number below `below`, of the upper 31 bits of a state.
pub fn pick(state: u64, below: u64) -> u64
    requires { 0 < below }
    ensures { result ≡ pick state below }
{
    (state >> 33) % below
}
