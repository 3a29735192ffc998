ghost use Rattle.std.specs.Prelude.{◌≡◌, IfSome, None};
ghost use Rattle.sc_spelling.specs.Reading.{Gives};
ghost use Rattle.sc_frames.specs.Heads.{spelling_of_head, head_at};

use sc_spelling::{u32_at, u64_at};

/// How many bytes the first entry of a file has.
pub const HEAD_LENGTH: usize = 26;

/// Of which collection, and which of its buckets, a file is.
#[derive(Clone, Copy, PartialEq)]
pub struct Head {
    /// How many nodes there are.
    pub nodes: u32,
    /// Into how many shards the hashes are cut at first.
    pub shards: u32,
    /// How many replicas each shard has.
    pub replicas: u8,
    /// Over how many buckets the ids are spread.
    pub buckets: u32,
    /// How many entries the journal of a bucket may have.
    pub log_limit: u64,
    /// The bucket's number, counted from 0.
    pub bucket: u32,
}

/// The first entry of a file.
pub fn head_body(head: Head) -> [u8; HEAD_LENGTH]
    ensures { result ≡ spelling_of_head head }
{
    let [n0, n1, n2, n3] = head.nodes.to_le_bytes();
    let [s0, s1, s2, s3] = head.shards.to_le_bytes();
    let [b0, b1, b2, b3] = head.buckets.to_le_bytes();
    let [l0, l1, l2, l3, l4, l5, l6, l7] = head.log_limit.to_le_bytes();
    let [k0, k1, k2, k3] = head.bucket.to_le_bytes();
    [
        0,
        n0,
        n1,
        n2,
        n3,
        s0,
        s1,
        s2,
        s3,
        head.replicas,
        b0,
        b1,
        b2,
        b3,
        l0,
        l1,
        l2,
        l3,
        l4,
        l5,
        l6,
        l7,
        k0,
        k1,
        k2,
        k3,
    ]
}

/// The first entry that the bytes are, all of them. `None` where they are that of no file.
pub fn read_head(body: &[u8]) -> Option<Head>
    ensures found { IfSome result (λ head. body.now ≡ spelling_of_head head) }
    ensures none { result ≡ None → (head : Head) → body.now ≡ spelling_of_head head → ⊥ }
{
    at(body)
}

#[tactic(auto, unfolding(crate::specs::Heads::head_at))]
fn at(body: &[u8]) -> Option<Head>
    ensures { Gives (λ head. head) result (head_at body.now) }
{
    let [0, rest @ ..] = body else {
        return None;
    };
    let (nodes, rest) = u32_at(rest)?;
    let (shards, rest) = u32_at(rest)?;
    let [replicas, rest @ ..] = rest else {
        return None;
    };
    let replicas = *replicas;
    let (buckets, rest) = u32_at(rest)?;
    let (log_limit, rest) = u64_at(rest)?;
    let (bucket, rest) = u32_at(rest)?;
    if !rest.is_empty() {
        return None;
    }
    let head = Head {
        nodes,
        shards,
        replicas,
        buckets,
        log_limit,
        bucket,
    };
    Some(head)
}
