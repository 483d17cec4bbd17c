// What the decoder returns.

/// What became of a word: it is now the codeword that lay at this distance, or no codeword lies within
/// the bound and it is unchanged.
#[derive(Clone, Copy, Debug, PartialEq, Eq)]
pub enum Answer {
    /// The number of symbols that were wrong.
    Fixed(u8),

    /// No codeword is near.
    Beyond,
}

/// What became of a word with erased places: it is now the codeword that differed from it in as many
/// places that are not erased, and in as many that are, as `Fixed` says, or no codeword lies within the
/// bounds and it is unchanged.
#[derive(Clone, Copy, Debug, PartialEq, Eq)]
pub enum ErasedAnswer {
    /// The numbers of symbols that were wrong: outside the erased places, and at them.
    Fixed(u8, u8),

    /// No codeword is near.
    Beyond,
}
