//! The body of an action: its statements as one list of nodes, with several owners.
ghost use Rattle.std.specs.Prelude.{◌≡◌, ◌∷◌, [], true, IfOk};
ghost use Rattle.sv_world.specs.Short.{has_short_blocks};
ghost use Rattle.sv_world.specs.Parts.{Block, first, parts, block_in, IsBody};

use crate::flatten::push_block;
use crate::{Node, Stmt};
use std::alloc::{AllocError, Global};
use std::marker::Model;
use std::sync::ArcSlice;

/// The statements of an action, as one list of nodes with several owners, in any threads. Contracts see it as the list of the statements.
///
/// The nodes are one block: each node stands right before its parts.
#[derive(Debug, Drop)]
pub struct Body {
    nodes: ArcSlice<Node>,
}

impl Model for Body {
    ghost use Rattle.std.specs.Prelude.{List};
    ghost use Rattle.std.specs.Coded.{coded_list, codes};
    ghost use Rattle.std.specs.Arc.{arc_slice_items};
    ghost use Rattle.sv_world.specs.Parts.{first, parts, block_in, IsBody};
    ghost use Rattle.sv_world.specs.declared.action.Stmt.{Stmt};
    ghost use Rattle.sv_world.specs.contracts.action.Stmt as stmt;

    ghost Value = { List Stmt };

    ghost coded = { Prim.hlevel (codes, stmt.the_row.coded) };

    ghost view = { λ a. block_in (first (parts (arc_slice_items a.nodes))) };

    ghost invariant = { λ a. IsBody (arc_slice_items a.nodes) };
}

impl Body {
    /// The body that these nodes spell, with one owner.
    pub fn from_nodes(nodes: Vec<Node>) -> Result<Body, AllocError>
        requires { IsBody nodes.items }
        ensures { IfOk result (λ body. body ≡ block_in (first (parts nodes.items))) }
    {
        Ok(Body {
            nodes: ArcSlice::from_vec(nodes)?,
        })
    }

    /// The body of a tree, with one owner. `has_short_blocks` tells whether nodes can hold it.
    #[tactic(auto, using(crate::proofs::Spells::body_is, crate::proofs::Spells::body_view))]
    pub fn from_stmts(alloc: Global, stmts: &[Stmt]) -> Result<Body, AllocError>
        requires { has_short_blocks stmts.now ≡ true }
        ensures { IfOk result (λ body. body ≡ stmts.now) }
    {
        let mut nodes = Vec::new(alloc);
        push_block(&mut nodes, stmts)?;
        Body::from_nodes(nodes)
    }

    pub fn nodes(&self) -> &[Node]
        ensures { parts result.now ≡ Block self.now ∷ [] }
    {
        self.nodes.as_slice()
    }

    /// One more owner of the same statements.
    pub fn share(&self) -> Result<Body, AllocError>
        ensures { IfOk result (λ body. body ≡ self.now) }
    {
        Ok(Body {
            nodes: self.nodes.clone()?,
        })
    }
}
