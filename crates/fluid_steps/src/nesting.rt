// How deep lists and objects stand inside one another in a text. `fluid_json` has this walk for its own limits alone.
ghost use Rattle.std.specs.Prelude.{◌≡◌};
ghost use Rattle.fluid_json.specs.Spelled.{reaches};
ghost use Rattle.fluid_json.specs.declared.nesting.Place.TheVariants.{Outside};

/// Where a walk over a text stands.
#[derive(Clone, Copy, Debug, PartialEq, Eq)]
pub(crate) enum Stand {
    /// Outside every string.
    Plain,
    /// In a string.
    Quoted,
    /// In a string, behind a backslash.
    Slashed,
}

/// Whether lists and objects stand `top` deep inside one another somewhere in the text, JSON or not.
#[tactic(auto, unfolding(fluid_json::specs::Spelled::reaches))]
pub(crate) fn reaches(top: usize, text: &str) -> bool
    ensures { result ≡ reaches top Outside 0 text.now }
{
    let mut stand = Stand::Plain;
    let mut depth = 0usize;
    for byte in text.as_bytes() {
        depth = stand.depth_after(depth, *byte);
        if top <= depth {
            return true;
        }
        stand = stand.after(*byte);
    }
    false
}

impl Stand {
    ghost use Rattle.std.specs.Prelude.{◌+◌, ◌<◌, ◌^◌};
    ghost use Rattle.fluid_json.specs.Spelled.{place_after, depth_after};
    ghost use Rattle.fluid_steps.specs.Stands.{place};

    fn after(self, byte: u8) -> Stand
        ensures { place result ≡ place_after (place self) byte }
    {
        match self {
            Stand::Plain if byte == b'"' => Stand::Quoted,
            Stand::Plain => Stand::Plain,
            Stand::Quoted if byte == b'"' => Stand::Plain,
            Stand::Quoted if byte == b'\\' => Stand::Slashed,
            Stand::Quoted | Stand::Slashed => Stand::Quoted,
        }
    }

    fn depth_after(self, depth: usize, byte: u8) -> usize
        requires { depth + 1 < 2 ^ 64 }
        ensures { result ≡ depth_after (place self) depth byte }
    {
        match (self, byte) {
            (Stand::Plain, b'[' | b'{') => depth + 1,
            (Stand::Plain, b']' | b'}') => depth.saturating_sub(1),
            _ => depth,
        }
    }
}
