//! Regions as a script gives them.

ghost use Rattle.spk_lattice.specs.Shapes.{IsInRange, IsNear, IsNearBound, IsPoint, IsRadius};

use super::*;
use spk_num::decimal::Dec;
use spk_num::shape::Bound;
use spk_num::texts::Texts;
use std::alloc::AllocError;
use std::process::Abort;
use std::test::Fail;

/// So many units.
fn units(count: i8) -> Dec
    ensures { IsNear result }
{
    Dec {
        millionths: i64::from(count) * 1_000_000,
    }
}

fn radius(count: u8) -> Dec
    ensures { IsRadius result }
{
    Dec {
        millionths: i64::from(count) * 1_000_000,
    }
}

fn at(count: i8) -> Bound
    ensures { IsNearBound result }
{
    Bound::At(units(count))
}

fn texts(alloc: Global, words: &[&str]) -> Result<Texts, AllocError> {
    let mut texts = Vec::new(alloc);
    for word in words {
        texts.push(Text::copy(alloc, word)?)?;
    }
    Ok(Texts::from_vec(texts))
}

/// Adds a region with this name.
fn add(regions: &mut Regions, alloc: Global, name: &str, shape: &Shape) -> Result<(), RegionFault>
    requires { IsInRange shape.now }
{
    let name = Text::copy(alloc, name)?;
    regions.add(alloc, &name, shape)
}

/// A block along x and y, and a sphere that sticks out of it.
fn block_and_sphere(alloc: Global) -> Result<Regions, RegionFault> {
    let mut regions = Regions::new(alloc);
    let block = Shape::Block {
        lo: [at(0), at(0), Bound::Open],
        hi: [at(4), at(4), Bound::Open],
    };
    let sphere = Shape::Sphere {
        centre: [units(4), units(4), units(0)],
        radius: radius(1),
    };
    add(&mut regions, alloc, "a", &block)?;
    add(&mut regions, alloc, "b", &sphere)?;
    Ok(regions)
}

/// Checks whether the region with a name holds a point, in half units.
fn expect(
    rt: &impl Abort,
    alloc: Global,
    regions: &Regions,
    name: &str,
    point: [i64; 3],
    holds: Option<bool>,
) -> Result<(), AllocError>
    requires { IsPoint point }
{
    let text = Text::copy(alloc, name)?;
    assert!(rt; regions.holds(&text, point) == holds, "{name} at {point:?}");
    Ok(())
}

#[test]
fn holds_points(rt: HostRuntime) -> Result<(), Fail> {
    let alloc = rt.alloc();
    let mut regions = block_and_sphere(alloc)?;
    let all = Shape::Intersect {
        parts: texts(alloc, &["a", "b"])?,
    };
    let any = Shape::Union {
        parts: texts(alloc, &["a", "b"])?,
    };
    add(&mut regions, alloc, "c", &all)?;
    add(&mut regions, alloc, "d", &any)?;
    expect(&rt, alloc, &regions, "c", [8, 6, 0], Some(true))?;
    expect(&rt, alloc, &regions, "c", [8, 8, 0], Some(true))?;
    expect(&rt, alloc, &regions, "c", [10, 8, 0], Some(false))?;
    expect(&rt, alloc, &regions, "d", [10, 8, 0], Some(true))?;
    expect(&rt, alloc, &regions, "d", [10, 9, 0], Some(false))?;
    expect(&rt, alloc, &regions, "e", [0, 0, 0], None)?;
    assert_eq!(rt; regions.len(), 4);
    Ok(())
}

#[test]
fn holds_points_round_an_axis(rt: HostRuntime) -> Result<(), Fail> {
    let alloc = rt.alloc();
    let mut regions = Regions::new(alloc);
    let cylinder = Shape::Cylinder {
        axis: 2,
        centre: [units(0), units(0)],
        radius: radius(1),
        lo: Bound::Open,
        hi: Bound::Open,
    };
    add(&mut regions, alloc, "r", &cylinder)?;
    expect(&rt, alloc, &regions, "r", [2, 0, 4], Some(true))?;
    expect(&rt, alloc, &regions, "r", [2, 2, 4], Some(false))?;
    Ok(())
}

#[test]
fn finds_regions_by_name(rt: HostRuntime) -> Result<(), Fail> {
    let alloc = rt.alloc();
    let regions = block_and_sphere(alloc)?;
    let block = Text::copy(alloc, "a")?;
    let sphere = Text::copy(alloc, "b")?;
    assert_eq!(rt; regions.find(&block), Some(0));
    assert_eq!(rt; regions.find(&sphere), Some(1));
    assert_eq!(rt; regions.holds_at(1, [10, 8, 0]), true);
    let found = regions.block(&block).expect(&rt, "a block");
    assert!(rt; found.hi == [at(4), at(4), Bound::Open], "{found:?}");
    assert!(rt; regions.block(&sphere).is_none(), "a sphere");
    Ok(())
}

#[test]
fn refuses(rt: HostRuntime) -> Result<(), Fail> {
    let alloc = rt.alloc();
    let mut regions = block_and_sphere(alloc)?;
    let empty = Shape::Block {
        lo: [at(4), at(0), at(0)],
        hi: [at(0), at(1), at(1)],
    };
    let fault = add(&mut regions, alloc, "a", &empty);
    assert!(rt; matches!(fault, Err(RegionFault::Twice)), "{fault:?}");
    let fault = add(&mut regions, alloc, "e", &empty);
    assert!(rt; matches!(fault, Err(RegionFault::Empty)), "{fault:?}");
    let name = Text::copy(alloc, "e")?;
    let fault = regions.judge(alloc, &name, &empty);
    assert!(rt; matches!(fault, Err(RegionFault::Empty)), "{fault:?}");
    let unknown = Shape::Union {
        parts: texts(alloc, &["z"])?,
    };
    match add(&mut regions, alloc, "e", &unknown) {
        Err(RegionFault::Unknown(part)) => assert_eq!(rt; part.as_str(), "z"),
        fault => assert!(rt; false, "{fault:?}"),
    }
    let many = Shape::Union {
        parts: texts(alloc, &["a"; 17])?,
    };
    let fault = add(&mut regions, alloc, "e", &many);
    assert!(rt;
        matches!(fault, Err(RegionFault::TooManyParts)),
        "{fault:?}"
    );
    assert_eq!(rt; regions.len(), 2);
    Ok(())
}

/// Adds a sphere of one point.
fn add_point(regions: &mut Regions, alloc: Global, name: &str) -> Result<(), RegionFault> {
    let point = Shape::Sphere {
        centre: [units(0), units(0), units(0)],
        radius: radius(0),
    };
    add(regions, alloc, name, &point)
}

#[test]
fn refuses_too_many(rt: HostRuntime) -> Result<(), Fail> {
    let alloc = rt.alloc();
    let mut regions = Regions::new(alloc);
    for k in 0..128 {
        let name = format!(in alloc; "r{k}")?;
        add_point(&mut regions, alloc, name.as_str())?;
    }
    let fault = add_point(&mut regions, alloc, "r128");
    assert!(rt;
        matches!(fault, Err(RegionFault::TooManyRegions)),
        "{fault:?}"
    );
    Ok(())
}
