//! A flat list of propensities, which is walked for each choice.

ghost use Rattle.std.specs.Prelude.{◌≡◌, ℕ, ◌+◌, ◌*◌, ◌^◌, ◌<◌, ◌≤◌, List, [], length, sum, take, replicate, slice_set, slice_index, All, IfOk, IfSome, IfNone};
ghost use Rattle.spk_solve.specs.Choice.{IsNamed, Chooses, RunningSum};

use crate::solver::Chosen;
use spk_num::{OutOfMemory, Stream};
use std::alloc::Global;
use std::marker::Model;

/// Propensities in a list, with their total. The list is at the front of one that is as long as the room.
#[derive(Debug, Drop)]
pub struct Flat {
    weights: Vec<u64>,
    used: usize,
    total: u64,
}

impl Model for Flat {
    ghost use Rattle.spk_solve.specs.Kept.{Kept, kept_of, IsKept};

    ghost Value = { Kept };

    ghost view = { λ f. kept_of f.weights.items f.used };

    ghost invariant = { λ f. IsKept f.weights.items f.used f.total };
}

impl Flat {
    /// An empty list with room for so many.
    pub fn new(alloc: Global, room: usize) -> Result<Flat, OutOfMemory>
        requires { room ≤ 4194304 }
        ensures room { IfOk result (λ f. f.room ≡ room) }
        ensures empty { IfOk result (λ f. f.list ≡ []) }
    {
        let weights = vec![in alloc; 0; room]?;
        Ok(Flat {
            weights,
            used: 0,
            total: 0,
        })
    }

    /// A list of so many, all 0.
    pub fn reset(&mut self, n: usize)
        requires { n ≤ self.old.room }
        ensures list { self.new.list ≡ replicate n 0 }
        ensures room { self.new.room ≡ self.old.room }
    {
        'zeros: for place in 0..n {
            self.weights[place] = 0;
        }
        self.used = n;
        self.total = 0;
    }

    /// Replaces one.
    pub fn set(&mut self, place: usize, weight: u64)
        requires place { place < length self.old.list }
        requires small { weight ≤ 2 ^ 35 }
        ensures list { self.new.list ≡ slice_set self.old.list place weight }
        ensures room { self.new.room ≡ self.old.room }
    {
        self.total = self.total - self.weights[place] + weight;
        self.weights[place] = weight;
    }

    /// The list.
    pub fn as_slice(&self) -> &[u64]
        ensures list { result.now ≡ self.now.list }
        ensures small { All (λ w. w ≤ 2 ^ 35) result.now }
        ensures few { length result.now ≤ 4194304 }
    {
        &self.weights[..self.used]
    }

    /// The total.
    pub fn total(&self) -> u64
        ensures total { result ≡ sum self.now.list }
        ensures below { result < 2 ^ 63 }
    {
        self.total
    }

    /// Chooses the place that a target below the total names, by two draws.
    pub fn choose(&self, stream: &mut Stream) -> Option<Chosen>
        ensures none { IfNone result (sum self.now.list ≡ 0) }
        ensures still { IfNone result (stream.new ≡ stream.old) }
        ensures some { IfSome result (λ _. 0 < sum self.now.list) }
        ensures chosen { IfSome result (λ chosen. Chooses RunningSum self.now.list stream.old chosen stream.new) }
    {
        let total = self.total();
        if total == 0 {
            return None;
        }
        let target = stream.below_two(total);
        Some(place_of(self.as_slice(), target))
    }
}

/// The first place where the running sum, itself included, passes a target.
fn place_of(weights: &[u64], target: u64) -> Chosen
    requires target { target < sum weights.now }
    requires small { sum weights.now < 2 ^ 63 }
    ensures { IsNamed weights.now target result.place result.rest }
{
    let mut passed = 0;
    for (place, weight) in weights.iter().enumerate() {
        if target < passed + *weight {
            return Chosen {
                place,
                rest: target - passed,
            };
        }
        passed += *weight;
    }
    unreachable!()
}
