//! The energy of a site.

ghost use Rattle.std.specs.Prelude.{◌≡◌, ◌≤◌, length};
ghost use Rattle.spk_lattice.specs.Layout.{sites_of};
ghost use Rattle.spk_lattice.specs.Neighbours.{IsId};
ghost use Rattle.spk_report.specs.Energies.{is_counted, site_energy};

use spk_lattice::Lattice;
use spk_sched::EnergyKind;

/// Whether the energy of a site with its own value counts a neighbour with this value.
fn is_counted(kind: EnergyKind, own: u32, value: u32) -> bool
    ensures { result ≡ is_counted kind own value }
{
    match kind {
        EnergyKind::Unlike => value != own,
        EnergyKind::Zero => false,
        EnergyKind::Vacant => own == 2 && value == 1,
    }
}

/// The energy of the site with an id, where these are the values of all sites.
pub fn site_energy(kind: EnergyKind, lattice: &Lattice, values: &[u32], id: u32) -> u64
    requires values { length values.now ≡ sites_of lattice.now }
    requires id { IsId lattice.now id }
    ensures { result ≡ site_energy kind lattice.now values.now id }
{
    let own = values[id as usize - 1];
    let near = lattice.neighbours(id);
    let mut energy = 0;
    for neighbour in near.as_slice() {
        if is_counted(kind, own, values[*neighbour as usize - 1]) {
            energy += 1;
        }
    }
    energy
}
