//! The existing name before another.

use crate::node::NodeId;

/// The node of the last existing name that doesn't stand behind a name, and with how many labels both begin.
#[derive(Clone, Copy, Debug)]
pub(crate) struct Preceding {
    pub node: NodeId,
    pub shared: usize,
}
