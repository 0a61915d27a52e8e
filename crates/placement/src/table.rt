//! The placement of a config's keys.
ghost use Rattle.std.specs.Prelude.{◌≡◌, ◌-◌, ◌≤◌, [], ◌∷◌, length, slice_index_or, IfOk, IsSorted};
ghost use Rattle.placement.specs.Asked.{others, last_asked, asked};
ghost use Rattle.placement.specs.Config.{IsValidConfig, IsPlacement, EachHasReplicas, replicas_on, home_of};
ghost use Rattle.placement.specs.Ring.{point_cmp};

use crate::ring::points_of_all;
use crate::{Config, KeyPlace, Point, fnv1a64, walk};
use lattice_laws::NoMemory;
use std::alloc::Global;
use std::marker::Model;

/// Where each key of a config lives, worked out once. Contracts see the replicas of each key, in
/// the order of the keys.
#[derive(Debug, Drop)]
pub struct Placement {
    replicas: Vec<Vec<u16>>,
}

impl Model for Placement {
    ghost use Rattle.std.specs.Prelude.{ℕ, ◌<◌, ◌≤◌, List, All, length, map};

    ghost Value = { List (List ℕ) };

    ghost view = { λ placement. map (λ replicas. replicas.items) placement.replicas.items };

    ghost invariant = { λ placement. (length placement.replicas.items ≤ 128) × All (λ replicas. 0 < length replicas.items) placement.replicas.items };
}

impl Placement {
    /// Works out where the keys of a valid config live.
    pub fn build(alloc: Global, config: &Config) -> Result<Placement, NoMemory>
        requires { IsValidConfig config.now }
        ensures placed { IfOk result (IsPlacement config.now) }
        ensures replicas { IfOk result (EachHasReplicas config.now config.now.keys) }
        ensures keys { IfOk result (λ placement. length placement ≡ length config.now.keys) }
    {
        let ring = points_of_all(alloc, config.workers)?;
        let mut replicas = Vec::new(alloc);
        for key in config.keys.as_slice() {
            replicas.push(replicas_of(alloc, &ring, config, key)?)?;
        }
        Ok(Placement { replicas })
    }

    /// The number of keys. Takes no memory.
    pub fn keys(&self) -> u16
        ensures keys { result ≡ length self.now }
        ensures few { length self.now ≤ 128 }
    {
        self.replicas.len() as u16
    }

    /// The workers that hold a key, in order; the key is one of 1 to `keys()`. Takes no memory and
    /// constant time.
    pub fn replicas(&self, key: u16) -> &[u16]
        requires some { 1 ≤ key }
        requires known { key ≤ length self.now }
        ensures replicas { result.now ≡ slice_index_or self.now (key - 1) [] }
        ensures some { 1 ≤ length result.now }
    {
        &self.replicas[key as usize - 1]
    }

    /// The replica that takes a session's puts on a key: the replicas in turn, by the session's
    /// number, which is at least 1. The key is one of 1 to `keys()`. Takes no memory and constant
    /// time.
    pub fn home(&self, session: u16, key: u16) -> u16
        requires session_some { 1 ≤ session }
        requires some { 1 ≤ key }
        requires known { key ≤ length self.now }
        ensures { result ≡ home_of (slice_index_or self.now (key - 1) []) session }
    {
        let replicas = &self.replicas[key as usize - 1];
        replicas[(session as usize - 1) % replicas.len()]
    }

    /// The replica that a session's ask for a key goes to, by the number of the ask from 1: its home
    /// first, then the others as they are listed, and round again. The session is at least 1, and the key
    /// one of 1 to `keys()`. Takes no memory.
    pub fn asked(&self, session: u16, key: u16, ask: u32) -> u16
        requires session_some { 1 ≤ session }
        requires some { 1 ≤ key }
        requires known { key ≤ length self.now }
        requires ask_some { 1 ≤ ask }
        ensures { result ≡ asked self.now session key ask }
    {
        let home = self.home(session, key);
        let replicas = self.replicas(key);
        let order = count_others(replicas, home) + 1;
        in_order(replicas, home, (ask as usize - 1) % order)
    }

    /// The replica of a key that a session asks last in each round: the last that is not its home, and
    /// the home where there is no other. The session is at least 1, and the key one of 1 to `keys()`.
    /// Takes no memory.
    pub fn last_asked(&self, session: u16, key: u16) -> u16
        requires session_some { 1 ≤ session }
        requires some { 1 ≤ key }
        requires known { key ≤ length self.now }
        ensures { result ≡ last_asked self.now session key }
    {
        let home = self.home(session, key);
        let replicas = self.replicas(key);
        in_order(replicas, home, count_others(replicas, home))
    }

    /// An equal placement.
    pub fn copy(&self) -> Result<Placement, NoMemory>
        ensures { IfOk result (λ copy. copy ≡ self.now) }
    {
        let replicas = self.replicas.clone()?;
        Ok(Placement { replicas })
    }
}

/// How many of the replicas are not the home.
fn count_others(replicas: &[u16], home: u16) -> usize
    ensures { result ≡ length (others home replicas.now) }
{
    replicas.iter().filter(|replica| **replica != home).count()
}

/// Of the home and then the other replicas as they are listed, the one at a place, from 0.
fn in_order(replicas: &[u16], home: u16, place: usize) -> u16
    requires { place ≤ length (others home replicas.now) }
    ensures { result ≡ slice_index_or (home ∷ others home replicas.now) place 0 }
{
    if place == 0 {
        return home;
    }
    let mut left = place - 1;
    for replica in replicas {
        if *replica != home {
            if left == 0 {
                return *replica;
            }
            left -= 1;
        }
    }
    home
}

/// The workers that hold a key: its pins, and where it has none the workers met from its hash
/// onwards.
fn replicas_of(
    alloc: Global,
    ring: &[Point],
    config: &Config,
    key: &KeyPlace,
) -> Result<Vec<u16>, NoMemory>
    requires { IsSorted point_cmp ring.now }
    ensures { IfOk result (λ replicas. replicas.items ≡ replicas_on ring.now config.now key.now) }
{
    let pins = key.pins.as_slice();
    if pins.is_empty() {
        walk(
            alloc,
            ring,
            fnv1a64(key.name.as_bytes()),
            config.factor_of(key),
        )
    } else {
        Ok(Vec::from_slice(alloc, pins)?)
    }
}
