//! Laws of the nodes that spell a body.
ghost use Rattle.std.specs.Prelude.{◌≡◌, ◌↔◌, List, [], ◌∷◌, ◌++◌};
ghost use Rattle.sv_world.specs.declared.action.Stmt.{Stmt};
ghost use Rattle.sv_world.specs.declared.node.Node.{Node};
ghost use Rattle.sv_world.specs.Parts.{Part, Block, parts};
ghost use Rattle.sv_world.specs.Spelled.{body_spelled};

/// The nodes of a body spell that body, whatever stands behind them, and no other nodes spell it.
pub fn bodies_are_spelled()
    ensures spelled { (body : List Stmt) (behind : List Node) → parts (body_spelled body ++ behind) ≡ Block body ∷ parts behind }
    ensures alone { (body : List Stmt) (nodes : List Node) → (parts nodes ≡ Block body ∷ []) → (nodes ≡ body_spelled body) }
{}
