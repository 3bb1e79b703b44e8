//! What a run needs besides the box.

ghost use Rattle.std.specs.Prelude.{◌≡◌, ◌≤◌, List, None, IfOk};
ghost use Rattle.spk_lattice.specs.Layout.{sites_of};
ghost use Rattle.spk_run.specs.declared.dump.DumpState.{DumpState};
ghost use Rattle.spk_run.specs.Running.{HasRoomFor, display_of};
ghost use Rattle.spk_run.specs.Snapshots.{CanWrite, HasRoomForDumps};
ghost use Rattle.spk_run.specs.Solvers.{style_of};

use crate::domain::Domain;
use crate::output::Output;
use crate::piece::Piece;
use crate::rank::all_cells;
use crate::snapshot_writer::SnapshotWriter;
use crate::solver::AnySolver;
use spk_cmds::SolveStyle;
use spk_lattice::Lattice;
use spk_num::sweep::Sweep;
use spk_patch::Patch;
use std::alloc::{AllocError, Global};

/// What a run needs besides the box. It is made before the run's first write.
#[derive(Debug, Drop)]
pub struct RunRoom {
    pub output: Output,
    /// Whether lines of statistics have the energy of all sites.
    pub with_energy: bool,
    pub writer: SnapshotWriter,
    pub piece: Piece,
    pub patch: Patch,
    pub solver: AnySolver,
}

/// How many propensities are kept: those of all sites, and none where there is a sweep.
fn kept_sites(lattice: &Lattice, sweep: Option<Sweep>) -> usize
    ensures all { sweep ≡ None → result ≡ sites_of lattice.now }
    ensures few { result ≤ 4194304 }
{
    lattice.known();
    match sweep {
        Some(_) => 0,
        None => lattice.sites() as usize,
    }
}

impl RunRoom {
    /// The room for a run of the sites of a box by a solver of a style, or by sweeps.
    pub fn new(
        alloc: Global,
        domain: &Domain,
        solver: SolveStyle,
        sweep: Option<Sweep>,
        output: Output,
        with_energy: bool,
        writer: SnapshotWriter,
    ) -> Result<RunRoom, AllocError>
        requires can_write { CanWrite writer }
        requires lattice { writer.sectors.grid.lattice ≡ domain.now.lattice }
        ensures room { (dumps : List DumpState) → HasRoomForDumps writer dumps → IfOk result (HasRoomFor domain.now dumps sweep) }
        ensures solver { IfOk result (λ room. style_of room.solver ≡ solver) }
        ensures display { IfOk result (λ room. display_of room.output.log room.with_energy room.writer ≡ display_of output.log with_energy writer) }
    {
        let lattice = &domain.lattice;
        let kept = kept_sites(lattice, sweep);
        Ok(RunRoom {
            output,
            with_energy,
            writer,
            piece: Piece::new(alloc, lattice.sites())?,
            patch: Patch::new(alloc, lattice, &all_cells(lattice), 0, true)?,
            solver: AnySolver::new(alloc, solver, kept)?,
        })
    }
}
