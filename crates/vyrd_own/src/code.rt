//! An expression, laid out for evaluation.

use crate::node::Node;

/// An expression: that of the last of these nodes, which lie in one list.
#[derive(Drop)]
pub struct Code {
    pub nodes: Vec<Node>,
}
