//! Regions by their names.

ghost use Rattle.std.specs.Prelude.{◌≡◌, find, position};
ghost use Rattle.std.specs.Option.{option_and_then, option_copied};
ghost use Rattle.std.specs.Str.{bytes_eq};
ghost use Rattle.spk_lattice.specs.Regions.{block_in};
ghost use Rattle.spk_lattice.specs.declared.regions.region.Region.{Region as Stored};

use super::block::Block;
use super::region::Region;
use spk_num::text::Text;

/// The place of the region with this name.
pub(crate) fn place_named(regions: &[Region], name: &Text) -> Option<usize>
    ensures { result ≡ position (λ (region : Stored). bytes_eq region.named.name name.now) regions.now }
{
    regions.iter().position(|region| region.named.name == *name)
}

/// The region with this name.
fn region_named<'a>(regions: &'a [Region], name: &Text) -> Option<&'a Region>
    ensures { option_copied result ≡ find (λ (region : Stored). bytes_eq region.named.name name.now) regions.now }
{
    regions.iter().find(|region| region.named.name == *name)
}

/// The block with this name.
pub(crate) fn block_named(regions: &[Region], name: &Text) -> Option<Block>
    ensures { result ≡ option_and_then (λ (region : Stored). block_in region.named.shape) (find (λ (region : Stored). bytes_eq region.named.name name.now) regions.now) }
{
    match region_named(regions, name) {
        Some(region) => region.block(),
        None => None,
    }
}
