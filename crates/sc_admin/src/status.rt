//! The body of the answer that shows the collection's shards.

ghost use Rattle.std.specs.Prelude.{◌≡◌, ◌≤◌, [], ◌∷◌, codes, IfOk, OnOk};
ghost use Rattle.serde_json.specs.View.{view, members_view};
ghost use Rattle.sc_json.specs.Documents.{object_of, put_all};
ghost use Rattle.sc_reply.specs.Bodies.{header_member};
ghost use Rattle.serde_json.specs.Data.{string};
ghost use Rattle.sc_admin.specs.Status as shown;

use crate::split::header_value;
use crate::state::{replica_state, state_name};
use crate::text::text_of;
use sc_cluster::{ClusterMap, Slice, core_name};
use sc_hash::range_text;
use sc_record::Text;
use serde_json::{Map, Value, json, put};
use std::alloc::{AllocError, Global};

/// The body of the answer to CLUSTERSTATUS: the slices of the map by their names, on nodes 1 up to the last.
pub fn status_body(alloc: Global, map: &ClusterMap, nodes: u32) -> Result<Text, AllocError>
    requires { 1 ≤ nodes }
    ensures { IfOk result (λ text. text ≡ shown.status_text map.now nodes) }
{
    let value = status_value(alloc, map, nodes)?;
    text_of(alloc, &value)
}

/// The value of the answer.
fn status_value(alloc: Global, map: &ClusterMap, nodes: u32) -> Result<Value, AllocError>
    requires { 1 ≤ nodes }
    ensures { IfOk result (λ value. view value ≡ shown.status_data map.now nodes) }
{
    let shards = shards_value(alloc, map, nodes)?;
    let collections = collections_value(alloc, shards)?;
    let live_nodes = nodes_value(alloc, nodes)?;
    answer_value(alloc, cluster_value(alloc, collections, live_nodes)?)
}

/// The answer that shows this cluster.
fn answer_value(alloc: Global, cluster: Value) -> Result<Value, AllocError>
    ensures { IfOk result (λ value. view value ≡ object_of ((codes "cluster", view cluster) ∷ header_member 0 ∷ [])) }
{
    let header = header_value(alloc)?;
    json!(in alloc; {"cluster": cluster, "responseHeader": header})
}

/// The cluster of these collections and these nodes.
fn cluster_value(alloc: Global, collections: Value, live_nodes: Value) -> Result<Value, AllocError>
    ensures { IfOk result (λ value. view value
        ≡ object_of ((codes "collections", view collections) ∷ (codes "live_nodes", view live_nodes) ∷ [])) }
{
    json!(in alloc; {"collections": collections, "live_nodes": live_nodes})
}

/// The one collection, of these shards.
fn collections_value(alloc: Global, shards: Value) -> Result<Value, AllocError>
    ensures { IfOk result (λ value. view value ≡ shown.collections_data (view shards)) }
{
    let router = json!(in alloc; {"name": "compositeId"})?;
    let docs = json!(in alloc; {"router": router, "shards": shards})?;
    json!(in alloc; {"docs": docs})
}

/// The slices by their names.
fn shards_value(alloc: Global, map: &ClusterMap, nodes: u32) -> Result<Value, AllocError>
    requires { 1 ≤ nodes }
    ensures { IfOk result (λ value. view value ≡ shown.shards_data nodes map.now) }
{
    let mut members = Map::new(alloc);
    let mut left = map.len();
    while left > 0 {
        left -= 1;
        if let Some(slice) = map.get(left) {
            put_slice(&mut members, alloc, slice, nodes)?;
        }
    }
    Ok(Value::Object(members))
}

/// Puts a slice by its name.
fn put_slice(
    members: &mut Map<String, Value>,
    alloc: Global,
    slice: &Slice,
    nodes: u32,
) -> Result<(), AllocError>
    requires { 1 ≤ nodes }
    ensures { OnOk result (members_view members.new.entries
        ≡ put_all (shown.slice_member nodes slice.now ∷ []) (members_view members.old.entries)) }
{
    let value = slice_value(alloc, slice, nodes)?;
    put(members, alloc, slice.name.as_str(), value)
}

/// A slice: its range, its replicas and its state.
fn slice_value(alloc: Global, slice: &Slice, nodes: u32) -> Result<Value, AllocError>
    requires { 1 ≤ nodes }
    ensures { IfOk result (λ value. view value ≡ (shown.slice_member nodes slice.now).1) }
{
    let range = range_text(alloc, &slice.range)?;
    let range = Value::try_from_str(alloc, range.as_str())?;
    let replicas = replicas_value(alloc, slice, nodes)?;
    let state = Value::try_from_str(alloc, state_name(slice.state))?;
    json!(in alloc; {"range": range, "replicas": replicas, "state": state})
}

/// The replicas of a slice by the names of their cores.
fn replicas_value(alloc: Global, slice: &Slice, nodes: u32) -> Result<Value, AllocError>
    requires { 1 ≤ nodes }
    ensures { IfOk result (λ value. view value ≡ shown.replicas_data nodes slice.now) }
{
    let mut members = Map::new(alloc);
    let mut replica = slice.replicas;
    while replica > 0 {
        put_replica(&mut members, alloc, slice, replica, nodes)?;
        replica -= 1;
    }
    Ok(Value::Object(members))
}

/// Puts a replica by the name of its core.
fn put_replica(
    members: &mut Map<String, Value>,
    alloc: Global,
    slice: &Slice,
    replica: u8,
    nodes: u32,
) -> Result<(), AllocError>
    requires replica { 1 ≤ replica }
    requires nodes { 1 ≤ nodes }
    ensures { OnOk result (members_view members.new.entries
        ≡ put_all (shown.replica_member nodes slice.now replica ∷ []) (members_view members.old.entries)) }
{
    let name = core_name(alloc, slice.name.as_str(), replica)?;
    let value = replica_value(alloc, slice, replica, nodes)?;
    put(members, alloc, name.as_str(), value)
}

/// A replica: whether it leads, its node and its state.
fn replica_value(alloc: Global, slice: &Slice, replica: u8, nodes: u32) -> Result<Value, AllocError>
    requires replica { 1 ≤ replica }
    requires nodes { 1 ≤ nodes }
    ensures { IfOk result (λ value. view value ≡ (shown.replica_member nodes slice.now replica).1) }
{
    let mut members = Map::new(alloc);
    let state = Value::try_from_str(alloc, replica_state(slice.state))?;
    put(&mut members, alloc, "state", state)?;
    let node = node_value(alloc, slice.node_of(replica, nodes))?;
    put(&mut members, alloc, "node_name", node)?;
    put_leader(&mut members, alloc, replica)?;
    Ok(Value::Object(members))
}

/// Puts the mark of the replica that leads.
fn put_leader(
    members: &mut Map<String, Value>,
    alloc: Global,
    replica: u8,
) -> Result<(), AllocError>
    ensures { OnOk result (members_view members.new.entries
        ≡ put_all (shown.leader_members replica) (members_view members.old.entries)) }
{
    if replica != 1 {
        return Ok(());
    }
    let leads = Value::try_from_str(alloc, "true")?;
    put(members, alloc, "leader", leads)
}

/// The name of a node, counted from 1.
fn node_value(alloc: Global, node: u32) -> Result<Value, AllocError>
    ensures { IfOk result (λ value. view value ≡ string (shown.node_name node)) }
{
    let name = format!(in alloc; "node{node}")?;
    Value::try_from_str(alloc, name.as_str())
}

/// The nodes in order.
fn nodes_value(alloc: Global, nodes: u32) -> Result<Value, AllocError>
    ensures { IfOk result (λ value. view value ≡ shown.nodes_data nodes) }
{
    let mut items = Vec::new(alloc);
    for before in 0..nodes {
        items.push(node_value(alloc, before + 1)?)?;
    }
    Ok(Value::Array(items))
}
