//! What threads share or pass on: what a search reads and asks, the map of slices, and a core with its log.

use sc_cluster::{ClusterMap, SplitPlan};
use sc_eval::{BindFault, Bound};
use sc_keys::Key;
use sc_query::{Query, QueryFault};
use sc_replica::{Cells, Replica};
use sc_rows::LiveBits;
use sc_segment::Segment;
use sc_snapshot::Snapshot;
use sc_ulog::Log;
use std::marker::{Send, Sync};

#[test]
fn threads_share_what_searches_and_cores_are() {
    assert_shared::<Query>();
    assert_shared::<QueryFault>();
    assert_shared::<Bound>();
    assert_shared::<BindFault>();
    assert_shared::<Snapshot>();
    assert_shared::<LiveBits>();
    assert_shared::<ClusterMap>();
    assert_shared::<SplitPlan>();
    assert_shared::<Log<u8>>();
    assert_shared::<Cells>();
    assert_shared::<Replica>();
}

fn assert_shared<T: Send + Sync>() {}

// So is a segment, where its keys are.
fn assert_segment_shared<K: Key + Send + Sync>() {
    assert_shared::<Segment<K>>();
}
