//! Regions by the values of their words.

ghost use Rattle.std.specs.Prelude.{◌≡◌, IfOk};
ghost use Rattle.spk_num.specs.declared.shape.Shape.TheVariants.{Union, Intersect};
ghost use Rattle.spk_cmds.specs.Values.{words_of};
ghost use Rattle.spk_cmds.specs.Makers.Region.{axis_of, block, sphere, cylinder, region_of};

use crate::command::Command;
use crate::value::Values;
use spk_num::shape::Shape;
use spk_num::text::Text;
use std::alloc::{AllocError, Global};

/// `block B B B B B B`, from the low and the high bound in x to those in z.
pub fn block(values: &Values) -> Shape
    ensures { result ≡ block values.now }
{
    Shape::Block {
        lo: [values.bound(2), values.bound(4), values.bound(6)],
        hi: [values.bound(3), values.bound(5), values.bound(7)],
    }
}

/// `sphere D D D D`, the centre and the radius.
pub fn sphere(values: &Values) -> Shape
    ensures { result ≡ sphere values.now }
{
    Shape::Sphere {
        centre: [values.decimal(2), values.decimal(3), values.decimal(4)],
        radius: values.decimal(5),
    }
}

/// The axis that a word names: 0, 1 or 2 for `x`, `y` or `z`.
fn axis_of(word: &str) -> u32
    ensures { result ≡ axis_of word.now }
{
    match word {
        "x" => 0,
        "y" => 1,
        _ => 2,
    }
}

/// `cylinder A D D D B B`: the axis, the centre, the radius, and the bounds along the axis.
pub fn cylinder(values: &Values) -> Shape
    ensures { result ≡ cylinder values.now }
{
    Shape::Cylinder {
        axis: axis_of(values.word(2)),
        centre: [values.decimal(3), values.decimal(4)],
        radius: values.decimal(5),
        lo: values.bound(6),
        hi: values.bound(7),
    }
}

/// `union W` and then the parts.
pub fn union_of(alloc: Global, parts: &Values) -> Result<Shape, AllocError>
    ensures { IfOk result (λ shape. shape ≡ Union (words_of parts.now)) }
{
    let parts = parts.words(alloc)?;
    Ok(Shape::Union { parts })
}

/// `intersect W` and then the parts.
pub fn intersect_of(alloc: Global, parts: &Values) -> Result<Shape, AllocError>
    ensures { IfOk result (λ shape. shape ≡ Intersect (words_of parts.now)) }
{
    let parts = parts.words(alloc)?;
    Ok(Shape::Intersect { parts })
}

/// `region ID` and then a shape.
pub fn region_of(alloc: Global, values: &Values, shape: Shape) -> Result<Command, AllocError>
    ensures { IfOk result (λ command. command ≡ region_of values.now shape) }
{
    let name = Text::copy(alloc, values.word(0))?;
    Ok(Command::Region { name, shape })
}
