ghost use Rattle.std.specs.Prelude.{◌≡◌, ◌<◌, ◌≤◌, ◌+◌, ◌-◌, ℕ, List, [], ◌∷◌, ◌++◌, length, Option, Some, IsErr, IfOk, IfSome, OnOk, OnErr, vec_len, vec_capacity};
ghost use Rattle.sc_session.specs.Listening.{GivesFirst, CountsCall, CountsNoCall, links_given, nothing_kept};

use sc_collection::Trail;
use sc_io::{Failed, Faults, Sink, Source};
use sc_record::List;
use std::alloc::{AllocError, Global};
use std::collections::VecDeque;
use std::marker::Send;
use std::mem;

/// A connection that was accepted: what its requests are read from, and what its replies are written to.
#[derive(Debug, Drop)]
pub struct Link<S, W> {
    pub source: S,
    pub sink: W,
}

/// A connection that was taken back, with what the trail kept of it.
#[derive(Debug, Drop)]
pub struct Taken<S, W> {
    pub link: Link<S, W>,
    pub trail: Trail,
}

/// What gives connections and takes them back: a port of the machine, a list in memory.
pub trait Listener {
    ghost use Rattle.sc_session.specs.declared.listener.Link.{Link};
    ghost use Rattle.sc_session.specs.declared.listener.Taken.{Taken};

    type S: Source + Send;

    type W: Sink + Send;

    /// The links that are still to come, in order, where it reports them.
    ghost coming: { Self → Option (List (Link Self.S Self.W)) };

    /// The links that were taken back, each with what its trail kept, in order, where it reports them.
    ghost taken: { Self → Option (List (Taken Self.S Self.W)) };

    /// How often it has failed.
    ghost faults: { Self → ℕ };

    /// How many links it gave and has not taken back.
    ghost out: { Self → ℕ };

    /// Gives the next link. `Ok(None)` says that no link will come any more. A call that failed gave nothing, and may be made again.
    fn accept(&mut self) -> Result<Option<Link<Self::S, Self::W>>, Failed>
        ensures given { IfOk result (λ given. IfSome (coming self.old) (λ links. GivesFirst given links (coming self.new))) }
        ensures failed { OnErr result (coming self.new ≡ coming self.old) }
        ensures taken { taken self.new ≡ taken self.old }
        ensures out { out self.new ≡ out self.old + links_given result }
        ensures steady { OnOk result (faults self.new ≡ faults self.old) }
        ensures cause { OnErr result (faults self.old < faults self.new) }
        ensures no_fall { faults self.old ≤ faults self.new };

    /// Takes a link back, with what the trail kept of it, and leaves the trail empty. It takes no memory and never fails.
    fn close(&mut self, link: Link<Self::S, Self::W>, trail: &mut Trail)
        requires { 1 ≤ out self.old }
        ensures taken { IfSome (taken self.old) (λ links. taken self.new ≡ Some (links ++ record { link = link; trail = trail.old } ∷ [])) }
        ensures trail { trail.new ≡ nothing_kept }
        ensures coming { coming self.new ≡ coming self.old }
        ensures out { out self.new + 1 ≡ out self.old }
        ensures faults { faults self.new ≡ faults self.old };
}

/// A listener that gives the links of a list, from its front. `close` keeps the link together with its trail, and leaves a spare one
/// in its place, empty, that was made beforehand, one for each link. The calls of `accept` whose numbers, counted from 0, are in `fails` fail. `calls` is the
/// number of the next call; at 2^64 - 1 it stands still, and each call from there on has that number.
#[derive(Debug, Drop)]
pub struct MemListener<S, W> {
    /// The links that are still to come.
    pub links: VecDeque<Link<S, W>>,
    /// The spare trails that are left: one for each link that is still to come or is out.
    pub spare: Vec<Trail>,
    /// The links that were taken back, with room for one more for each trail that is left.
    pub taken: Vec<Taken<S, W>>,
    pub fails: List<u64>,
    pub calls: u64,
    pub faults: Faults,
    pub ghost enough: { length links.items ≤ vec_len spare },
    pub ghost room: { vec_len taken + vec_len spare ≤ vec_capacity taken },
}

impl<S, W> MemListener<S, W> {
    /// A listener of these links, which gave none yet. Its calls take no memory.
    pub fn new(
        alloc: Global,
        links: Vec<Link<S, W>>,
        fails: List<u64>,
    ) -> Result<MemListener<S, W>, AllocError>
    where
        S: Drop,
        W: Drop,
        ensures links { IfOk result (λ listener. listener.links.items ≡ links.items) }
        ensures spare { IfOk result (λ listener. vec_len listener.spare ≡ length links.items) }
        ensures taken { IfOk result (λ listener. listener.taken.items ≡ []) }
        ensures fails { IfOk result (λ listener. listener.fails ≡ fails) }
        ensures calls { IfOk result (λ listener. listener.calls ≡ 0) }
        ensures faults { IfOk result (λ listener. listener.faults ≡ 0) }
    {
        let count = links.len();
        Ok(MemListener {
            links: VecDeque::from_vec(links),
            spare: empty_trails(alloc, count)?,
            taken: Vec::with_capacity(alloc, count)?,
            fails,
            calls: 0,
            faults: Faults::none(),
        })
    }
}

/// So many empty trails.
fn empty_trails(alloc: Global, count: usize) -> Result<Vec<Trail>, AllocError>
    ensures { IfOk result (λ trails. vec_len trails ≡ count) }
{
    let mut trails = Vec::with_capacity(alloc, count)?;
    for _ in 0..count {
        trails.push_reserved(Trail::new(alloc)?);
    }
    Ok(trails)
}

impl<S: Source + Send, W: Sink + Send> Listener for MemListener<S, W> {
    type S = S;

    type W = W;

    ghost coming = { λ s. Some s.links.items };

    ghost taken = { λ s. Some s.taken.items };

    ghost faults = { λ s. s.faults };

    ghost out = { λ s. vec_len s.spare - length s.links.items };

    fn accept(&mut self) -> Result<Option<Link<S, W>>, Failed>
        ensures given { IfOk result (λ given. GivesFirst given self.old.links.items (Some self.new.links.items)) }
        ensures failed { OnErr result (self.new.links.items ≡ self.old.links.items) }
        ensures taken { self.new.taken.items ≡ self.old.taken.items }
        ensures spare { vec_len self.new.spare ≡ vec_len self.old.spare }
        ensures out { vec_len self.new.spare - length self.new.links.items ≡ vec_len self.old.spare - length self.old.links.items + links_given result }
        ensures steady { OnOk result (self.new.faults ≡ self.old.faults) }
        ensures cause { OnErr result (self.new.faults ≡ self.old.faults + 1) }
        ensures calls { CountsCall (IsErr result) (record { fails = self.old.fails; next = self.old.calls })
            (record { fails = self.new.fails; next = self.new.calls }) }
    {
        let call = self.calls;
        self.calls = call.saturating_add(1);
        if self.fails.as_slice().contains(&call) {
            self.faults.rise();
            return Err(Failed);
        }
        Ok(self.links.pop_front())
    }

    fn close(&mut self, link: Link<S, W>, trail: &mut Trail)
        requires { 1 ≤ vec_len self.old.spare - length self.old.links.items }
        ensures taken { self.new.taken.items ≡ self.old.taken.items ++ record { link = link; trail = trail.old } ∷ [] }
        ensures trail { trail.new ≡ nothing_kept }
        ensures links { self.new.links.items ≡ self.old.links.items }
        ensures spare { vec_len self.new.spare + 1 ≡ vec_len self.old.spare }
        ensures out { (vec_len self.new.spare - length self.new.links.items) + 1 ≡ vec_len self.old.spare - length self.old.links.items }
        ensures faults { self.new.faults ≡ self.old.faults }
        ensures calls { CountsNoCall (record { fails = self.old.fails; next = self.old.calls })
            (record { fails = self.new.fails; next = self.new.calls }) }
    {
        match self.spare.pop() {
            None => unreachable!(),
            Some(spare) => {
                let full = mem::replace(trail, spare);
                trail.clear();
                self.taken.push_reserved(Taken { link, trail: full });
            }
        }
    }
}
