//! The ranges of random headers.
ghost use Rattle.std.specs.Prelude.{◌≡◌};
ghost use Rattle.vc_switch.specs.State.{interval_of, IsRange};
ghost use Rattle.vc_switch.specs.Switch.{drawn};

/// The random headers of an input link.
#[derive(Clone, Copy, Drop)]
pub(crate) struct RandomRange {
    /// The least header.
    pub(crate) lower: u32,
    /// One more than the greatest, at most 65,536.
    pub(crate) limit: u32,
}

/// The header that a word draws from a range: `lower + word mod (limit - lower)`, and none where there is no range.
pub(crate) fn draw(range: Option<RandomRange>, word: u32) -> Option<u16>
    requires { IsRange range }
    ensures { result ≡ drawn (interval_of range) word }
{
    match range {
        None => None,
        Some(RandomRange { lower, limit }) => {
            let header = lower + word % (limit - lower);
            Some(header as u16)
        }
    }
}
