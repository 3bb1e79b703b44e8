//! The values of all sites, as the only rank hands them over for a text.

ghost use Rattle.std.specs.Prelude.{◌≡◌, ◌≤◌, List, ℕ, length, IfOk};
ghost use Rattle.spk_lattice.specs.Layout.{IsLattice, sites_of};
ghost use Rattle.spk_sched.specs.Decompositions.{Decomposition};
ghost use Rattle.spk_report.specs.Pieces.{ArePieces, AreValuesOf, one_rank};

use crate::values::copy_values;
use spk_patch::Patch;
use spk_sched::{Counts, Letter};
use std::alloc::{AllocError, Global};
use std::marker::Model;
use std::slice;

/// A letter with a value for each site.
#[derive(Debug, Drop)]
pub struct Piece {
    letter: Letter,
}

impl Model for Piece {
    ghost use Rattle.std.specs.Prelude.{List, ℕ};

    ghost Value = { List ℕ };

    ghost view = { λ p. p.letter.values.items };
}

impl Piece {
    /// A piece with room for the values of so many sites.
    pub fn new(alloc: Global, count: u32) -> Result<Piece, AllocError>
        ensures { IfOk result (λ piece. length piece ≡ count) }
    {
        let values = vec![in alloc; 1; count as usize]?;
        Ok(Piece {
            letter: Letter {
                values,
                energy: 0,
                counts: Counts::none(),
            },
        })
    }

    /// Takes the values of a patch that has all cells.
    pub fn fill(&mut self, patch: &Patch)
        requires { length self.old ≡ length patch.now.values }
        ensures { self.new ≡ patch.now.values }
    {
        copy_values(&mut self.letter.values, patch);
    }

    /// The list with this piece alone.
    #[tactic(auto, using(spk_report::proofs::OnePiece::only_piece, spk_report::proofs::OnePiece::piece_shows))]
    pub fn as_slice(&self) -> &[Letter]
        ensures pieces { (boxes : Decomposition) → boxes.grid.ranks ≡ one_rank → length self.now ≡ sites_of boxes.grid.lattice →
            ArePieces boxes result.now }
        ensures values { (boxes : Decomposition) → IsLattice boxes.grid.lattice → boxes.grid.ranks ≡ one_rank → length self.now ≡ sites_of boxes.grid.lattice →
            AreValuesOf boxes result.now self.now }
    {
        slice::from_ref(&self.letter)
    }
}
