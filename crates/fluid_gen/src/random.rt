//! Numbers that are drawn by a rule.
ghost use Rattle.std.specs.Prelude.{◌≡◌, ◌+◌, ◌*◌, ◌^◌, ◌<◌, ◌/◌, ◌%◌};
ghost use Rattle.fluid_gen.specs.Drawing.{next_state, number_in};

const FACTOR: u64 = 6_364_136_223_846_793_005;

const SUMMAND: u64 = 1_442_695_040_888_963_407;

/// The state of a linear congruential generator of 64 bits.
#[derive(Clone, Copy)]
pub(crate) struct Random {
    pub(crate) state: u64,
}

impl Random {
    /// The next number below `bound`.
    pub(crate) fn draw(&mut self, bound: u32) -> u32
        requires { 0 < bound }
        ensures state { self.new.state ≡ next_state self.old.state }
        ensures number { result ≡ number_in (next_state self.old.state) bound }
    {
        self.state = stepped(self.state);
        scaled(self.state, bound)
    }
}

#[tactic(auto, unfolding(crate::specs::Drawing::next_state))]
fn stepped(state: u64) -> u64
    ensures { result ≡ next_state state }
{
    state.wrapping_mul(FACTOR).wrapping_add(SUMMAND)
}

// The upper 31 bits are the random ones.
#[tactic(auto, unfolding(crate::specs::Drawing::number_in))]
fn scaled(state: u64, bound: u32) -> u32
    requires { 0 < bound }
    ensures { result ≡ number_in state bound }
{
    (state / 8_589_934_592 % u64::from(bound)) as u32
}
