//! What a history that files everything says of the reached items.

ghost use Rattle.verdict_book.specs.Items.{FilesAllReached};

use crate::work::Work;

/// Where a legal history files every issued ticket, and the number in each filing is that of the
/// children of the filed item, its items are the reached items of the work, each once.
pub fn all_filed<W: Work>()
    ensures { FilesAllReached W.first_item W.children_of }
{}
