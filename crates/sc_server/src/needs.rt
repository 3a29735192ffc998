//! What a server needs before it opens its port.
ghost use Rattle.std.specs.Prelude.{◌≡◌, length, All, IfOk, OnOk};
ghost use Rattle.sc_arguments.specs.Arguments.{IsServer};
ghost use Rattle.sc_shared.specs.Passes.{CanSplit};
ghost use Rattle.sc_server.specs.Needs.{AreNew, IsKit, AreNeeds};

use sc_arguments::Server;
use sc_collection::Trail;
use sc_cores::cores_of_map;
use sc_io::Host;
use sc_record::List;
use sc_shared::{Collection, Passes};
use std::alloc::{AllocError, Global};

/// What a server needs beside the crews of its workers.
#[derive(Drop)]
pub struct Needs {
    pub collection: Collection,
    /// The passes off which those of the workers were split.
    pub passes: Passes,
    /// The cores of the collection's first map.
    pub cores: List<Host>,
    /// For each worker what it needs.
    pub kits: Vec<Kit>,
    /// The line that says that the server listens.
    pub line: String,
}

/// What one worker needs beside its crew.
#[derive(Drop)]
pub struct Kit {
    pub passes: Passes,
    pub trail: Trail,
}

/// What a server needs before it opens its port: nothing has happened on the collection. An error means out of memory.
pub fn needs_of(alloc: Global, server: &Server) -> Result<Needs, AllocError>
    requires { IsServer server.now }
    ensures { IfOk result (AreNeeds server.now) }
{
    let (collection, mut passes) = Collection::new(alloc, &server.shape)?;
    let port = server.port;
    Ok(Needs {
        cores: cores_of_map(alloc, server.shape.nodes, collection.first())?,
        kits: kits_of(alloc, &collection, &mut passes, server.workers)?,
        line: format!(in alloc; "listening {port}\n")?,
        passes,
        collection,
    })
}

/// For each of so many workers passes of its own and an empty trail.
fn kits_of(
    alloc: Global,
    collection: &Collection,
    passes: &mut Passes,
    workers: u32,
) -> Result<Vec<Kit>, AllocError>
    requires new { AreNew collection.now passes.old }
    requires splits { CanSplit workers passes.old }
    ensures new { OnOk result (AreNew collection.now passes.new) }
    ensures count { IfOk result (λ kits. length kits.items ≡ workers) }
    ensures kits { IfOk result (λ kits. All (IsKit collection.now) kits.items) }
{
    let mut kits = Vec::with_capacity(alloc, workers as usize)?;
    for _ in 0..workers {
        kits.push_reserved(Kit {
            passes: collection.split_passes(alloc, passes)?,
            trail: Trail::new(alloc)?,
        });
    }
    Ok(kits)
}
