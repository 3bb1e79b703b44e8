//! The view of a whole list of values.

ghost use Rattle.std.specs.Prelude.{◌≡◌, ◌<◌, ◌≤◌, All, length, true};
ghost use Rattle.spk_lattice.specs.Layout.{sites_of};
ghost use Rattle.spk_lattice.specs.Neighbours.{ids_of};
ghost use Rattle.spk_app.specs.PlainViews.{frame_of, places_beside, sight_of};

use crate::view::View;
use spk_lattice::{Lattice, Neighbours};
use std::marker::Model;

/// All sites of a lattice with their values. A site's place is its id less 1.
#[derive(Debug, Drop)]
pub struct PlainView {
    lattice: Lattice,
    values: Vec<u32>,
}

impl Model for PlainView {
    ghost use Rattle.std.specs.Prelude.{◌≡◌, length};
    ghost use Rattle.spk_lattice.specs.Layout.{sites_of};
    ghost use Rattle.spk_app.specs.PlainViews.{PlainSites};

    ghost Value = { PlainSites };

    ghost view = { λ v. record { lattice = v.lattice; values = v.values.items } };

    ghost invariant = { λ v. length v.values.items ≡ sites_of v.lattice };
}

impl PlainView {
    /// The view of the sites of a lattice that have these values.
    pub fn new(lattice: &Lattice, values: Vec<u32>) -> PlainView
        requires { length values.items ≡ sites_of lattice.now }
        ensures { result ≡ record { lattice = lattice.now; values = values.items } }
    {
        PlainView {
            lattice: *lattice,
            values,
        }
    }

    /// The values, in the order of the sites' ids.
    pub fn into_values(self) -> Vec<u32>
        ensures { result.items ≡ self.values }
    {
        self.values
    }
}

/// Lists the neighbours of the site at a place, by their places.
pub fn list_beside(lattice: &Lattice, place: usize, near: &mut Neighbours)
    requires { place < sites_of lattice.now }
    ensures few { near.new.count ≤ 26 }
    ensures places { ids_of near.new ≡ places_beside lattice.now place }
    ensures inside { All (λ j. j < sites_of lattice.now) (places_beside lattice.now place) }
{
    lattice.known();
    let site = lattice.site(place as u32 + 1);
    let count = lattice.degree();
    near.count = count;
    'near: for k in 0..count as usize {
        near.ids[k] = lattice.neighbour(&site, k) - 1;
    }
}

/// The neighbours of the site at a place, by their places.
pub fn places_beside(lattice: &Lattice, place: usize) -> Neighbours
    requires { place < sites_of lattice.now }
    ensures few { result.count ≤ 26 }
    ensures places { ids_of result ≡ places_beside lattice.now place }
    ensures inside { All (λ j. j < sites_of lattice.now) (places_beside lattice.now place) }
{
    let mut near = Neighbours {
        count: 0,
        ids: [0; 26],
    };
    list_beside(lattice, place, &mut near);
    near
}

impl View for PlainView {
    ghost sight = { λ v. sight_of v };

    ghost frame = { λ v. frame_of v.lattice };

    ghost whole = { λ _ _. true };

    fn value(&self, i: usize) -> u32 {
        self.values[i]
    }

    fn put(&mut self, i: usize, v: u32) {
        self.values[i] = v;
    }

    fn neighbours(&self, i: usize) -> Neighbours {
        places_beside(&self.lattice, i)
    }
}

#[cfg(test)]
mod tests;
