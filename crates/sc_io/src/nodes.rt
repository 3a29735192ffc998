ghost use Rattle.std.specs.Prelude.{◌≡◌, ◌<◌, ◌-◌, ◌↔◌, [], ◌∷◌, ◌++◌, max, IsTrue, IsFalse, IfOk, OnOk, OnErr};

use std::alloc::{AllocError, Global};
use std::marker::Model;

/// A list of nodes, and room for more, which contracts see as a number: as many as callers have asked for and not used.
#[derive(Debug, Drop)]
pub struct Nodes {
    nodes: Vec<u32>,
    room: usize,
}

impl Model for Nodes {
    ghost use Rattle.std.specs.Prelude.{◌+◌, ◌≤◌, vec_len, vec_capacity};
    ghost use Rattle.sc_io.specs.Hosts.{NodesState};

    ghost Value = { NodesState };

    ghost view = { λ a. record { nodes = a.nodes.items; room = a.room } };

    ghost invariant = { λ a. vec_len a.nodes + a.room ≤ vec_capacity a.nodes };
}

impl Nodes {
    /// No nodes, and room for `n`. An error means out of memory.
    pub fn with_room(alloc: Global, n: usize) -> Result<Nodes, AllocError>
        ensures { IfOk result (λ nodes. nodes ≡ record { nodes = []; room = n }) }
    {
        let nodes = Vec::with_capacity(alloc, n)?;
        Ok(Nodes { nodes, room: n })
    }

    /// The nodes, in order.
    pub fn as_slice(&self) -> &[u32]
        ensures { result.now ≡ self.now.nodes }
    {
        self.nodes.as_slice()
    }

    /// Makes room for at least `n` more nodes. An error means out of memory.
    pub fn reserve(&mut self, n: usize) -> Result<(), AllocError>
        ensures ok { OnOk result (self.new ≡ record self.old { room = max self.old.room n }) }
        ensures err { OnErr result (self.new ≡ self.old) }
    {
        if n > self.room {
            self.nodes.reserve(n)?;
            self.room = n;
        }
        Ok(())
    }

    /// Notes the node at the end, where there is room for it: whether there was. It takes no memory.
    pub fn note(&mut self, node: u32) -> bool
        ensures noted { IsTrue result → self.new ≡ record { nodes = self.old.nodes ++ node ∷ []; room = self.old.room - 1 } }
        ensures full { IsFalse result → self.new ≡ self.old }
        ensures fits { IsTrue result ↔ (0 < self.old.room) }
    {
        if self.room == 0 {
            return false;
        }
        self.room -= 1;
        self.nodes.push_reserved(node);
        true
    }
}
