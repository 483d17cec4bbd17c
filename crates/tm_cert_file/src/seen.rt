// What is seen of a window, and whether another one comes.

/// Why a window fails.
#[derive(Clone, Copy, Debug, PartialEq, Eq)]
pub enum Reason {
    /// Its numbers or its bits are not those of a window, or it stands where no window may stand.
    Shape,
    /// It does not go on where the window before it ended.
    Joint,
    /// The first column and its least register at which a test of the columns fails.
    Edge(u32, u8),
    /// The columns are right, but the path costs this much.
    Sum(u64),
}

/// What is seen of a window by those of its octets that are there.
#[derive(Clone, Copy, Debug, PartialEq, Eq)]
pub enum Seen {
    /// Nothing yet.
    More,
    /// It is whole, and its path costs the least.
    Passed,
    /// It fails, whatever octets come.
    Failed(Reason),
}

/// Whether a window comes next.
#[derive(Clone, Copy, Debug, PartialEq, Eq)]
pub enum Next {
    /// One may come.
    May,
    /// One is missing.
    Must,
    /// The one before was the last.
    Never,
}
