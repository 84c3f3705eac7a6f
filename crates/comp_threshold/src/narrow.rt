//! A width within the limit.

ghost use Rattle.std.specs.Prelude.{◌≡◌, ◌≤◌};
ghost use Rattle.comp_threshold.specs.declared.limits.TheConstants.{WIDTH_LIMIT};

/// The width of a leaf.
#[derive(Clone, Copy)]
pub(crate) struct Width {
    pub(crate) number: u16,
    ghost within: { number ≤ WIDTH_LIMIT },
}

impl Width {
    pub(crate) fn new(number: u16) -> Width
        requires { number ≤ WIDTH_LIMIT }
        ensures { result.number ≡ number }
    {
        Width { number }
    }
}
