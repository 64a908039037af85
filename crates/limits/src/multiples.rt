ghost use Rattle.std.specs.Prelude.{◌≡◌};
ghost use Rattle.limits.specs.Around.{not_above, not_below};

/// The largest multiple of `step` that is not above `x`.
pub(crate) fn multiple_below(step: u32, x: u32) -> u32
    ensures { result ≡ not_above step x }
{
    x - x.checked_rem(step).unwrap_or(x)
}

/// The smallest multiple of `step` that is not below `x`, or `x` where there is none.
pub(crate) fn multiple_above(step: u32, x: u32) -> u32
    ensures { result ≡ not_below step x }
{
    x.checked_next_multiple_of(step).unwrap_or(x)
}
