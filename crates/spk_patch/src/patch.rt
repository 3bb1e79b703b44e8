//! The sites of a rank with their values.

ghost use Rattle.std.specs.Prelude.{◌≡◌, ◌≤◌, ◌<◌, ◌-ℤ◌, All, IfOk, IsTrue, length, replicate, slice_index, slice_set, ℤ};
ghost use Rattle.spk_lattice.specs.Layout.{basis_of, sites_of};
ghost use Rattle.spk_lattice.specs.Neighbours.{ids_of};
ghost use Rattle.spk_lattice.specs.Boxes.{IsBoxOf, box_of_cells, whole_box};
ghost use Rattle.spk_patch.specs.Patches.{IsCell, IsPatch, PatchSites, basis_shown, cell_shown, is_whole, near_of};
ghost use Rattle.spk_patch.specs.Patches.{patch_frame, place_at, place_count, showing, sight_of};

use crate::values::Values;
use spk_app::{NearValues, Neighbours, View, list_beside, places_beside};
use spk_lattice::{Cells, Lattice};
use std::alloc::{AllocError, Global};
use std::marker::Model;

/// A box of cells of a lattice with a halo around it, and the values of its sites.
#[derive(Debug, Drop)]
pub struct Patch {
    lattice: Lattice,
    own: Cells,
    halo: u32,
    wrapped: bool,
    values: Values,
}

impl Model for Patch {
    ghost use Rattle.std.specs.Prelude.{IsTrue};
    ghost use Rattle.spk_patch.specs.Patches.{PatchSites, IsPatch};

    ghost Value = { PatchSites };

    ghost view = { λ p.
        record { lattice = p.lattice; own = p.own; halo = p.halo; wrapped = p.wrapped; values = p.values } };

    ghost invariant = { λ p.
        IsPatch (record { lattice = p.lattice; own = p.own; halo = p.halo; wrapped = p.wrapped; values = p.values })
        × IsTrue p.wrapped };
}

impl Patch {
    /// A patch of these cells, whose values are all 0. Where it is wrapped, it has all cells and no halo.
    pub fn new(
        alloc: Global,
        lattice: &Lattice,
        own: &Cells,
        halo: u32,
        wrapped: bool,
    ) -> Result<Patch, AllocError>
        requires own { IsBoxOf lattice.now own.now }
        requires halo { halo ≤ 4 }
        requires all { IsTrue wrapped → box_of_cells own.now ≡ whole_box lattice.now }
        requires no_halo { IsTrue wrapped → halo ≡ 0 }
        requires wrapped { IsTrue wrapped }
        ensures { IfOk result (λ p. p ≡ record {
          lattice = lattice.now;
          own = own.now;
          halo = halo;
          wrapped = wrapped;
          values = replicate (place_count p) 0;
        }) }
    {
        lattice.known();
        Ok(Patch {
            lattice: *lattice,
            own: *own,
            halo,
            wrapped,
            values: Values::new(alloc, lattice.sites() as usize)?,
        })
    }

    /// What holds of every patch.
    pub fn known(&self)
        ensures patch { IsPatch self.now }
        ensures wrapped { IsTrue self.now.wrapped }
    {
        let _wrapped = self.wrapped;
    }

    /// Takes the values that its cells have among those of all sites of the lattice, in the order of their ids.
    pub fn fill_from(&mut self, values: &[u32])
        requires { length values.now ≡ sites_of self.old.lattice }
        ensures { self.new ≡ record self.old { values = showing self.old values.now } }
    {
        self.values.copy_from(values);
    }

    /// The lattice that the patch was made for.
    pub fn lattice(&self) -> Lattice
        ensures { result ≡ self.now.lattice }
    {
        self.lattice
    }

    /// The value at a place.
    pub fn value(&self, i: usize) -> u32
        requires { i < length self.now.values }
        ensures { result ≡ slice_index self.now.values i }
    {
        self.values.get(i)
    }

    /// The place of a basis point of a cell.
    pub fn place_of(&self, cell: [i64; 3], basis: u32) -> usize
        requires cell { IsCell self.now cell }
        requires basis { basis < basis_of self.now.lattice.style }
        ensures place { result ≡ place_at self.now cell basis }
        ensures exists { result < length self.now.values }
    {
        self.known();
        let at = [cell[0] as u32, cell[1] as u32, cell[2] as u32];
        self.lattice.id_of(at, basis) as usize - 1
    }

    /// The cell that a place shows.
    pub fn cell_at(&self, i: usize) -> [i64; 3]
        requires { i < length self.now.values }
        ensures cell { result ≡ cell_shown self.now i }
        ensures exists { IsCell self.now result }
        ensures place { place_at self.now result (basis_shown self.now i) ≡ i }
    {
        self.known();
        let [x, y, z] = self.lattice.cell_of(i as u32 + 1).cell;
        [i64::from(x), i64::from(y), i64::from(z)]
    }

    /// The basis point that a place shows.
    pub fn basis_at(&self, i: usize) -> u32
        requires { i < length self.now.values }
        ensures basis { result ≡ basis_shown self.now i }
        ensures exists { result < basis_of self.now.lattice.style }
    {
        self.known();
        self.lattice.cell_of(i as u32 + 1).basis
    }
}

impl View for Patch {
    ghost sight = { λ p. sight_of p };

    ghost frame = { λ p. patch_frame p };

    ghost whole = { λ p place. is_whole p place };

    fn value(&self, i: usize) -> u32 {
        self.values.get(i)
    }

    fn put(&mut self, i: usize, v: u32) {
        self.values.set(i, v);
    }

    fn neighbours(&self, i: usize) -> Neighbours {
        places_beside(&self.lattice, i)
    }

    fn list_near(&self, i: usize, near: &mut Neighbours) {
        list_beside(&self.lattice, i, near);
    }

    fn read_near(&self, i: usize, near: &mut NearValues) {
        let site = self.lattice.site(i as u32 + 1);
        let degree = self.lattice.degree();
        near.set_len(degree);
        'near: for k in 0..degree as usize {
            let id = self.lattice.neighbour(&site, k);
            near.set(k, self.values.get(id as usize - 1));
        }
    }

    fn count_near(&self, i: usize, value: u32, but: usize) -> u32 {
        let site = self.lattice.site(i as u32 + 1);
        let mut count = 0;
        'near: for k in 0..self.lattice.degree() as usize {
            let place = self.lattice.neighbour(&site, k) as usize - 1;
            let has_value = self.values.get(place) == value;
            count += u32::from(place != but && has_value);
        }
        count
    }
}

#[cfg(test)]
mod tests;
