//! What a demonstration needs before its makers get their crews.
ghost use Rattle.std.specs.Prelude.{◌≡◌, length, All, IfOk, OnOk};
ghost use Rattle.sc_arguments.specs.Arguments.{IsDemo};
ghost use Rattle.sc_shared.specs.Passes.{CanSplit};
ghost use Rattle.sc_server.specs.Needs.{AreNew};
ghost use Rattle.sc_demo.specs.Makers.{IsMakerKit, AreDemoNeeds};

use sc_arguments::Demo;
use sc_collection::{Shape, Trail};
use sc_cores::cores_of_map;
use sc_io::Host;
use sc_record::List;
use sc_shared::{Collection, Passes};
use std::alloc::{AllocError, Global};

/// What a demonstration needs beside the crews of its makers.
#[derive(Drop)]
pub struct Needs {
    pub collection: Collection,
    /// The passes off which those of the makers were split.
    pub passes: Passes,
    /// The cores of the collection's first map.
    pub cores: List<Host>,
    /// For each maker what it needs.
    pub kits: Vec<Kit>,
    /// The trail of what comes after the makers.
    pub trail: Trail,
}

/// What one maker needs beside its crew.
#[derive(Drop)]
pub struct Kit {
    pub passes: Passes,
    pub trail: Trail,
}

/// What a demonstration needs: nothing has happened on the collection, which has one shard with one replica, and 64 buckets. An error
/// means out of memory.
pub fn needs_of(alloc: Global, demo: &Demo) -> Result<Needs, AllocError>
    requires { IsDemo demo.now }
    ensures { IfOk result (AreDemoNeeds demo.now) }
{
    let shape = Shape {
        nodes: 1,
        shards: 1,
        replicas: 1,
        buckets: 64,
        log_limit: 1_048_576,
    };
    let (collection, mut passes) = Collection::new(alloc, &shape)?;
    Ok(Needs {
        cores: cores_of_map(alloc, shape.nodes, collection.first())?,
        kits: kits_of(alloc, &collection, &mut passes, demo.workers + 1)?,
        trail: Trail::new(alloc)?,
        passes,
        collection,
    })
}

/// For each of so many makers passes of its own and an empty trail.
fn kits_of(
    alloc: Global,
    collection: &Collection,
    passes: &mut Passes,
    makers: u32,
) -> Result<Vec<Kit>, AllocError>
    requires new { AreNew collection.now passes.old }
    requires splits { CanSplit makers passes.old }
    ensures new { OnOk result (AreNew collection.now passes.new) }
    ensures count { IfOk result (λ kits. length kits.items ≡ makers) }
    ensures kits { IfOk result (λ kits. All (IsMakerKit collection.now) kits.items) }
{
    let mut kits = Vec::with_capacity(alloc, makers as usize)?;
    for _ in 0..makers {
        kits.push_reserved(Kit {
            passes: collection.split_passes(alloc, passes)?,
            trail: Trail::new(alloc)?,
        });
    }
    Ok(kits)
}
