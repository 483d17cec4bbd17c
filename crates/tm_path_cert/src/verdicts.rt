// What a check is asked and what it returns.

/// The registers that a path may start from.
#[derive(Clone, Copy, Debug, PartialEq, Eq)]
pub enum Starts {
    /// Any of the 64.
    Any,
    /// This one, below 64.
    One(u8),
}

/// What a check returns.
#[derive(Clone, Copy, Debug, PartialEq, Eq)]
pub enum Verdict {
    /// The path costs the metric, and no candidate costs less.
    Yes,
    /// The first column, and the least register in it, at which a test of the columns fails.
    No(u32, u8),
    /// The columns are right, but the path costs this much.
    Sum(u64),
}
