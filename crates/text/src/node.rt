// A node of which something is still to come, and the byte in which it waits: its label, and as many times the labels there are as cases
// stand before its own. So a comparison tells a case from those behind it.
use crate::number::{LABELS, Number};
use std::marker::Model;

// The bytes of a case begin here, those of the first at 0.
const LAST_CHILDREN: u8 = LABELS;

const CHILDREN: u8 = 2 * LABELS;

const INSIDE: u8 = 3 * LABELS;

// What is still to come, and the node's label.
#[derive(Clone, Debug, Drop, PartialEq, Eq)]
pub(crate) enum Waiting {
    // Its others.
    Others(Number),
    // Its children; it has no others.
    LastChildren(Number),
    // Its children; it has others.
    Children(Number),
    // The rest of its children, inside its brackets.
    Inside(Number),
}

#[derive(Clone, Copy, Debug, PartialEq, Eq)]
pub(crate) struct Node {
    byte: u8,
}

impl Model for Node {
    ghost use Rattle.std.specs.Prelude.{refl};
    ghost use Rattle.text.specs.Nodes.{HoldsNode, Waiting as TheWaiting, byte_of_node, node_in, node_kept};

    ghost Value = { TheWaiting };

    ghost view = { λ n. node_in n.byte };

    ghost invariant = { λ n. HoldsNode n.byte };

    ghost inverse = { λ n. record { byte = byte_of_node n } };

    ghost inverse_ok = { λ n h. rw (node_kept n.byte h) refl };
}

impl Node {
    // What an array of nodes is filled with before one waits.
    pub(crate) const BLANK: Node = Node { byte: 0 };
}

impl From<Waiting> for Node {
    ghost use Rattle.std.specs.Prelude.{◌≡◌};

    ghost from_gives = { λ waiting node. node ≡ waiting };

    fn from(waiting: Waiting) -> Node {
        let byte = match waiting {
            Waiting::Others(label) => label.value(),
            Waiting::LastChildren(label) => LAST_CHILDREN + label.value(),
            Waiting::Children(label) => CHILDREN + label.value(),
            Waiting::Inside(label) => INSIDE + label.value(),
        };
        Node { byte }
    }
}

impl From<Node> for Waiting {
    ghost use Rattle.std.specs.Prelude.{◌≡◌};

    ghost from_gives = { λ node waiting. waiting ≡ node };

    fn from(node: Node) -> Waiting {
        if node.byte < LAST_CHILDREN {
            return Waiting::Others(Number::new(node.byte));
        }
        let label = Number::new(node.byte % LABELS);
        if node.byte < CHILDREN {
            Waiting::LastChildren(label)
        } else if node.byte < INSIDE {
            Waiting::Children(label)
        } else {
            Waiting::Inside(label)
        }
    }
}
