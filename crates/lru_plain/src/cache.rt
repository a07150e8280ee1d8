ghost use Rattle.std.specs.Prelude.{◌≡◌, ℕ, ◌<◌, ◌≤◌, ◌↔◌, List, [], ◌∷◌, ◌++◌, length, slice_index_or, slice_set, IsTrue, IfOk, Contains};
ghost use Rattle.lru_plain.specs.Shape.{sets_of, home_of, IsShape};
ghost use Rattle.lru_plain.specs.Lists.{free_block};
ghost use Rattle.lru_plain.specs.Cache.{touched, IsHit, empty_sets, plain, IsCache};

use crate::geometry::Geometry;
use crate::lists::Lists;
use smarts_base::NoMemory;
use std::alloc::Global;
use std::marker::Model;

/// A cache of blocks under LRU replacement. Only `new` takes memory.
#[derive(Debug, Drop)]
pub struct PlainCache {
    lists: Lists<u32>,
}

impl Model for PlainCache {
    ghost use Rattle.lru_plain.specs.Cache.{Cache};

    ghost Value = { Cache };

    ghost use Rattle.lru_plain.specs.CacheView.{cache_of};

    ghost view = { cache_of };
}

impl PlainCache {
    /// An empty cache.
    #[tactic(auto, unfolding(crate::specs::Cache::plain))]
    pub fn new(alloc: Global, geometry: Geometry) -> Result<PlainCache, NoMemory>
        ensures empty { IfOk result (λ cache. cache ≡ record { shape = geometry; sets = empty_sets geometry }) }
        ensures plain { IfOk result (λ cache. cache.sets ≡ plain [] geometry) }
    {
        Ok(PlainCache {
            lists: Lists::new(alloc, geometry)?,
        })
    }

    pub fn geometry(&self) -> Geometry
        ensures value { result ≡ self.now.shape }
        ensures cache { IsCache self.now }
    {
        self.lists.geometry()
    }

    /// Touches the block of an address, and tells whether it was there.
    #[inline]
    pub fn touch(&mut self, addr: u32) -> bool
        ensures hit { IsTrue result ↔ IsHit self.old.shape self.old.sets addr }
        ensures sets { self.new ≡ record self.old { sets = touched self.old.shape self.old.sets addr } }

        // After the addresses of a list, and then this one, it is the cache of the longer list.
        ensures plain { (addrs : List ℕ) → self.old.sets ≡ plain addrs self.old.shape
            → self.new.sets ≡ plain (addrs ++ addr ∷ []) self.old.shape }
    {
        let block = self.lists.geometry().block_of(addr);
        self.lists.touch(block)
    }

    /// Empties all sets.
    pub fn clear(&mut self)
        ensures { self.new ≡ record self.old { sets = empty_sets self.old.shape } }
    {
        self.lists.clear();
    }

    /// Puts a block behind the others of its set.
    pub fn append(&mut self, set: u32, block: u32)
        requires set { set < sets_of self.old.shape }
        requires room { length (slice_index_or self.old.sets set []) < self.old.shape.ways }
        requires block { block < free_block }
        requires home { home_of self.old.shape block ≡ set }
        requires absent { ¬ Contains (slice_index_or self.old.sets set []) block }
        ensures { self.new ≡ record self.old {
          sets = slice_set self.old.sets set
              (slice_index_or self.old.sets set [] ++ block ∷ []);
        } }
    {
        self.lists.append(set, block);
    }

    /// The blocks of a set, the most recent first.
    pub fn set(&self, set: u32) -> &[u32]
        requires { set < sets_of self.now.shape }
        ensures value { result.now ≡ slice_index_or self.now.sets set [] }
        ensures cache { IsCache self.now }
    {
        self.lists.list(set)
    }
}
