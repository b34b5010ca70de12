//! Counts that stand still at their last value.

ghost use Rattle.std.specs.Prelude.{◌≡◌};
ghost use Rattle.io_edges.specs.Counts.{risen};

/// The count after one more. It stands still at the last value of 64 bits.
pub(crate) fn raise(count: u64) -> u64
    ensures { result ≡ risen count }
{
    count.saturating_add(1)
}
