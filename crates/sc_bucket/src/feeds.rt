ghost use Rattle.std.specs.Prelude.{◌≡◌, ◌<◌, ◌-◌, ◌+◌, [], ◌∷◌, ◌++◌, length, map, slice_get, slice_set, Some, None, true, false, if◌then◌else◌, MatchOption, OnOk, OnErr, All};
ghost use Rattle.std.specs.List.{remove, IsDistinct};
ghost use Rattle.std.specs.Option.{option_map};
ghost use Rattle.std.specs.Arc.{arc_value};
ghost use Rattle.sc_record.specs.Writes.{Write};
ghost use Rattle.sc_bucket.specs.Kept.{FeedState};
ghost use Rattle.sc_record.specs.Names.{is_core};
ghost use Rattle.sc_snapshot.specs.Rows.{is_within};
ghost use Rattle.sc_bucket.specs.Pending.{is_feed_of, to_feed};

use crate::feed::Feed;
use sc_record::{Cell, CoreId};
use std::alloc::{AllocError, Global};
use std::marker::Model;

/// The feeds of the cores that are being fed, which contracts see as the list of them.
#[derive(Drop)]
pub struct Feeds {
    feeds: Vec<Feed>,
}

impl Model for Feeds {
    ghost use Rattle.std.specs.Prelude.{List};
    ghost use Rattle.sc_bucket.specs.Kept.{FeedState};

    ghost Value = { List FeedState };

    ghost view = { λ a. a.feeds.items };
}

impl Feeds {
    /// No feeds. It takes no memory.
    pub fn new(alloc: Global) -> Feeds
        ensures { result ≡ [] }
    {
        Feeds {
            feeds: Vec::new(alloc),
        }
    }

    /// The same feeds, with no copy.
    pub fn from_vec(feeds: Vec<Feed>) -> Feeds
        ensures { result ≡ feeds.items }
    {
        Feeds { feeds }
    }

    /// How many feeds there are.
    pub fn len(&self) -> usize
        ensures { result ≡ length self.now }
    {
        self.feeds.len()
    }

    /// The feed at this place of the list, from 0.
    pub fn get(&self, at: usize) -> &Feed
        requires { at < length self.now }
        ensures { slice_get self.now at ≡ Some result.now }
    {
        &self.feeds[at]
    }

    /// The place of the feed of this core; None where it has none.
    pub fn position(&self, core: CoreId) -> Option<usize>
        ensures { MatchOption result (All (λ (feed : FeedState). is_feed_of core feed ≡ false) self.now)
            (λ at. (feed : FeedState) × (slice_get self.now at ≡ Some feed) × (is_feed_of core feed ≡ true)) }
    {
        self.feeds.iter().position(|feed| feed.core() == core)
    }

    /// How many writes the core is still to be fed.
    pub fn pending_for(&self, core: CoreId) -> usize
        requires { IsDistinct is_core (map (λ (feed : FeedState). feed.core) self.now) }
        ensures { result ≡ length (to_feed self.now core) }
    {
        match self.position(core) {
            Some(at) => self.feeds[at].pending(),
            None => 0,
        }
    }

    /// Looks at the next row of the feed at this place: the write to feed, or None where its hash is not in the core's range. It takes
    /// no memory.
    pub fn look(&mut self, at: usize) -> Option<Cell>
        requires within { at < length self.old }
        requires left { (feed : FeedState) → slice_get self.old at ≡ Some feed → feed.next < length feed.rows }
        ensures next { (feed : FeedState) → slice_get self.old at ≡ Some feed
            → self.new ≡ slice_set self.old at (record feed { next = feed.next + 1 }) }
        ensures row { (feed : FeedState) (row : Write) → slice_get self.old at ≡ Some feed → slice_get feed.rows feed.next ≡ Some row
            → option_map arc_value result ≡ (if is_within feed.range row then Some row else None) }
    {
        self.feeds[at].look()
    }

    /// Puts a feed at the end. After an error they are as before: memory was refused.
    pub fn push(&mut self, feed: Feed) -> Result<(), AllocError>
        ensures ok { OnOk result (self.new ≡ self.old ++ feed ∷ []) }
        ensures err { OnErr result (self.new ≡ self.old) }
    {
        self.feeds.push(feed)?;
        Ok(())
    }

    /// Takes the feed at this place away.
    pub fn remove(&mut self, at: usize)
        requires { at < length self.old }
        ensures { self.new ≡ remove self.old at }
    {
        let _ended = self.feeds.remove(at);
    }

    /// Takes all feeds away.
    pub fn clear(&mut self)
        ensures { self.new ≡ [] }
    {
        self.feeds.clear();
    }
}
