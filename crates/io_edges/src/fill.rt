//! Filling a piece.

ghost use Rattle.std.specs.Prelude.{◌≡◌, ◌-◌, length, drop, min};
ghost use Rattle.io_edges.specs.Files.{IsPieceFrom};

/// Fills a front of the piece with the octets that stand from `at`, as many as there are and fit,
/// and answers how many these are.
pub(crate) fn fill(octets: &[u8], at: u64, piece: &mut [u8]) -> usize
    ensures count { result ≡ min (length piece.new) (length octets.now - at) }
    ensures front { IsPieceFrom octets.now at result piece.new }
    ensures rest { drop result piece.new ≡ drop result piece.old }
{
    let start = octets.len().min(at as usize);
    let left = &octets[start..];
    let count = left.len().min(piece.len());
    piece[..count].copy_from_slice(&left[..count]);
    count
}
