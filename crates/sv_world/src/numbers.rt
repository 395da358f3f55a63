//! The numbers of objects and of a body. They are always those of their types, but a contract knows it only of a number that is read. So these
//! functions read all numbers, and do nothing else.
ghost use Rattle.std.specs.Prelude.{◌≡◌, true, map, All};
ghost use Rattle.sv_world.specs.Trees.{all_true};
ghost use Rattle.sv_world.specs.Ranges.{is_i64, is_byte, ObjectFits, node_fits, body_fits};

use crate::{Body, Node, ObjectId};

/// The number of an object is one of its type.
pub fn read_object(object: ObjectId)
    ensures { ObjectFits object }
{
    let _object = object;
}

/// So is that of each of these.
pub fn read_objects(objects: &[ObjectId])
    ensures { All ObjectFits objects.now }
{
    for object in objects {
        read_object(*object);
    }
}

fn read_number(number: i64)
    ensures { is_i64 number ≡ true }
{
    let _number = number;
}

fn read_byte(byte: u8)
    ensures { is_byte byte ≡ true }
{
    let _byte = byte;
}

fn read_node(node: Node)
    ensures { node_fits node ≡ true }
{
    match node {
        Node::Lit(number) => read_number(number),
        Node::Attr { slot, attr } => {
            read_byte(slot);
            read_byte(attr);
        }
        Node::Set { slot, attr } => {
            read_byte(slot);
            read_byte(attr);
        }
        Node::Binary(_) => {}
        Node::Compare(_) => {}
        Node::Join(_) => {}
        Node::Not => {}
        Node::If => {}
        Node::Block { .. } => {}
    }
}

fn read_nodes(nodes: &[Node])
    ensures { all_true (map node_fits nodes.now) ≡ true }
{
    for node in nodes {
        read_node(*node);
    }
}

impl Body {
    /// The numbers of a body are those of their types.
    #[tactic(auto, using(crate::proofs::Ranged::body_ranged))]
    pub fn read_numbers(&self)
        ensures { body_fits self.now ≡ true }
    {
        read_nodes(self.nodes());
    }
}
