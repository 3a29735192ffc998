ghost use Rattle.std.specs.Prelude.{◌≡◌, ◌<◌};

use sc_hash::Range;
use sc_record::{CloneIn, SliceId, Text};
use std::alloc::{AllocError, Global};

/// What a slice is for, after Solr's states of a shard.
#[derive(Clone, Copy, Debug, PartialEq, Eq)]
pub enum State {
    /// It is sent the updates of its hashes, and searched.
    Active,
    /// It was split, and its subs have taken its place. Its data is kept.
    Inactive,
    /// A split is making it: it is sent the updates of its hashes, and not searched.
    Construction,
    /// The same, once its leader has all documents. Its followers are made meanwhile.
    Recovery,
}

impl State {
    ghost use Rattle.sc_cluster.specs.Slices.{is_active_state, is_forming_state};

    pub(crate) fn is_active(self) -> bool
        ensures { result ≡ is_active_state self }
    {
        matches!(self, State::Active)
    }

    /// A split is making the slice.
    pub fn is_forming(self) -> bool
        ensures { result ≡ is_forming_state self }
    {
        matches!(self, State::Construction | State::Recovery)
    }
}

/// A part of the collection: the documents whose hash is in its range, on so many replicas. Replica 1 leads and is on
/// `node`, and each further one is on the node after that of the one before it, in a ring. Nodes and replicas are counted
/// from 1.
#[derive(Debug, Drop)]
pub struct Slice {
    pub id: SliceId,
    pub name: Text,
    pub range: Range,
    pub state: State,
    pub replicas: u8,
    pub node: u32,
    pub ghost replicated: { 0 < replicas },
    pub ghost placed: { 0 < node },
}

impl Slice {
    ghost use Rattle.std.specs.Prelude.{◌≤◌};
    ghost use Rattle.sc_cluster.specs.Slices.{node_of};

    /// The node of a replica, in a cluster of so many nodes.
    pub fn node_of(&self, replica: u8, nodes: u32) -> u32
        requires replica { 1 ≤ replica }
        requires nodes { 1 ≤ nodes }
        ensures node { result ≡ node_of self.now.node replica nodes }
        ensures least { 1 ≤ result }
        ensures most { result ≤ nodes }
    {
        let steps = u64::from(self.node - 1) + u64::from(replica - 1);
        (steps % u64::from(nodes)) as u32 + 1
    }
}

impl CloneIn for Slice {
    fn clone_in(&self, alloc: Global) -> Result<Slice, AllocError> {
        Ok(Slice {
            id: self.id,
            name: self.name.clone_in(alloc)?,
            range: self.range,
            state: self.state,
            replicas: self.replicas,
            node: self.node,
        })
    }
}
