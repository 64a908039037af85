use days::Call;

/// What one day is given: the tape of its reference price, its calls in order, and one further call.
#[derive(Clone, Copy, Debug, PartialEq, Eq)]
pub struct DayPlan<'a> {
    pub tape: &'a [u8],
    pub calls: &'a [Call<'a>],
    pub next: Call<'a>,
}
