//! The energies of sites.

ghost use Rattle.std.specs.Prelude.{◌≡◌, ◌<◌, ◌≤◌, ◌^◌, All, IsTrue, length};
ghost use Rattle.spk_lattice.specs.Layout.{sites_of};
ghost use Rattle.spk_patch.specs.Patches.{sight_of};
ghost use Rattle.spk_run.specs.Energies.{energy_kind, energy_of_all};

use spk_app::App;
use spk_cmds::AppStyle;
use spk_patch::Patch;
use spk_sched::EnergyKind;

/// Which neighbours the energy of a site counts, by the style of the application.
pub fn energy_kind(style: AppStyle) -> EnergyKind
    ensures { result ≡ energy_kind style }
{
    match style {
        AppStyle::DiffusionOff => EnergyKind::Zero,
        AppStyle::DiffusionLinear => EnergyKind::Vacant,
        AppStyle::Ising
        | AppStyle::IsingSingle
        | AppStyle::Potts(_)
        | AppStyle::PottsNeighonly(_) => EnergyKind::Unlike,
    }
}

/// The energies of all sites of a wrapped patch together.
pub fn energy_of_all<A: App>(app: &A, patch: &Patch) -> u64
    requires wrapped { IsTrue patch.now.wrapped }
    requires all { length patch.now.values ≡ sites_of patch.now.lattice }
    requires valid { All (λ v. IsTrue ((A.rules app.now).is_valid v)) patch.now.values }
    ensures { result ≡ energy_of_all (A.rules app.now) (sight_of patch.now) }
{
    let mut total = 0;
    for place in 0..patch.lattice().sites() as usize {
        total += u64::from(app.energy(patch, place));
    }
    total
}
