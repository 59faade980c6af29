//! Chunks of activity bits that are pruned.

ghost use Rattle.std.specs.Prelude.{◌≡◌};
ghost use Rattle.qm_model.specs.Opening.{is_past_bits};
ghost use Rattle.qm_open.specs.Selecting.{bits_of, chunks_of, count_of, is_below_threshold, AreFew};

/// How many chunks of a list's activity bits are pruned.
#[derive(Clone, Copy, Drop)]
pub struct Pruned {
    /// The number of pruned chunks.
    pub chunks: u64,
    /// A chunk has a bit for each of 2^height locations.
    pub height: u32,
    /// The list size from which that many chunks may be pruned, if it is more than the chunks' own.
    pub threshold: Option<u64>,
}

/// How many bits the pruned chunks have.
pub(crate) fn bits_in(pruned: Option<Pruned>) -> u64
    requires { AreFew pruned }
    ensures { result ≡ bits_of pruned }
{
    match pruned {
        Some(pruned) => pruned.chunks << pruned.height,
        None => 0,
    }
}

/// Whether a list of this size is too short for the pruned chunks.
pub(crate) fn is_too_short(pruned: Option<Pruned>, size: u64) -> bool
    ensures { result ≡ is_below_threshold pruned size }
{
    match pruned {
        Some(pruned) => match pruned.threshold {
            Some(least) => size < least,
            None => false,
        },
        None => false,
    }
}

/// Whether a store that starts here starts past the chunk after the pruned ones.
pub(crate) fn is_past(pruned: Option<Pruned>, start: u64) -> bool
    requires { AreFew pruned }
    ensures { result ≡ is_past_bits (chunks_of pruned) start (count_of pruned) }
{
    match pruned {
        Some(pruned) => pruned.chunks < start >> pruned.height,
        None => false,
    }
}
