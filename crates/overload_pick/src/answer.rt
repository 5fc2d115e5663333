/// The choice among candidates, which are counted from 0 in their order (FreeBASIC Manual, Overload).
#[derive(Clone, Copy, Debug, PartialEq, Eq)]
pub enum Pick {
    /// The candidate that alone has the least sum of costs.
    One(usize),
    /// No candidate fits.
    Nobody,
    /// The first two of those that share the least sum.
    Tie(usize, usize),
}
