ghost use Rattle.std.specs.Prelude.{◌≡◌, count_by};
ghost use Rattle.fluid_json.specs.Spelled.{reaches, is_opening};
ghost use Rattle.fluid_json.specs.declared.nesting.Place.TheVariants.{Outside};

/// Where a walk over a text stands.
#[derive(Clone, Copy, Debug, PartialEq, Eq)]
pub enum Place {
    /// Outside every string.
    Outside,
    /// In a string.
    Inside,
    /// In a string, behind a backslash.
    Escaped,
}

/// Whether lists and objects stand `top` deep inside one another somewhere in the text, JSON or not.
#[tactic(auto, using(crate::proofs::Walk::few))]
pub fn reaches(top: usize, text: &str) -> bool
    ensures { result ≡ reaches top Outside 0 text.now }
{
    let bytes = text.as_bytes();
    if openings(bytes) < top {
        return false;
    }
    walk(top, bytes)
}

// How many brackets open, those inside strings too.
fn openings(bytes: &[u8]) -> usize
    ensures { result ≡ count_by is_opening bytes.now }
{
    bytes
        .iter()
        .filter(|byte| **byte == b'[' || **byte == b'{')
        .count()
}

#[tactic(auto, unfolding(crate::specs::Spelled::reaches))]
fn walk(top: usize, bytes: &[u8]) -> bool
    ensures { result ≡ reaches top Outside 0 bytes.now }
{
    let mut place = Place::Outside;
    let mut depth = 0usize;
    for byte in bytes {
        depth = place.depth_after(depth, *byte);
        if top <= depth {
            return true;
        }
        place = place.after(*byte);
    }
    false
}

impl Place {
    ghost use Rattle.std.specs.Prelude.{◌+◌, ◌<◌, ◌^◌};
    ghost use Rattle.fluid_json.specs.Spelled.{place_after, depth_after};

    fn after(self, byte: u8) -> Place
        ensures { result ≡ place_after self byte }
    {
        match self {
            Place::Outside if byte == b'"' => Place::Inside,
            Place::Outside => Place::Outside,
            Place::Inside if byte == b'"' => Place::Outside,
            Place::Inside if byte == b'\\' => Place::Escaped,
            Place::Inside | Place::Escaped => Place::Inside,
        }
    }

    fn depth_after(self, depth: usize, byte: u8) -> usize
        requires { depth + 1 < 2 ^ 64 }
        ensures { result ≡ depth_after self depth byte }
    {
        match (self, byte) {
            (Place::Outside, b'[' | b'{') => depth + 1,
            (Place::Outside, b']' | b'}') => depth.saturating_sub(1),
            _ => depth,
        }
    }
}
