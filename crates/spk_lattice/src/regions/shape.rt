//! Shapes: their parts, whether they are empty, and copies of them.

ghost use Rattle.std.specs.Prelude.{◌≡◌, IfOk};
ghost use Rattle.spk_lattice.specs.Shapes.{is_empty, parts_of};

use super::block::{Block, is_above};
use spk_num::shape::Shape;
use spk_num::text::Text;
use spk_num::texts::Texts;
use std::alloc::{AllocError, Global};

/// The names of a shape's parts.
pub(crate) fn parts_of(shape: &Shape) -> &[Text]
    ensures { result.now ≡ parts_of shape.now }
{
    match shape {
        Shape::Union { parts } | Shape::Intersect { parts } => parts.as_slice(),
        Shape::Block { .. } | Shape::Sphere { .. } | Shape::Cylinder { .. } => &[],
    }
}

/// Whether no point can lie in a shape: a low bound of it is above the high one, or it has no parts.
pub(crate) fn is_empty(shape: &Shape) -> bool
    ensures { result ≡ is_empty shape.now }
{
    match shape {
        Shape::Block { lo, hi } => Block { lo: *lo, hi: *hi }.is_empty(),
        Shape::Sphere { .. } => false,
        Shape::Cylinder { lo, hi, .. } => is_above(lo, hi),
        Shape::Union { parts } | Shape::Intersect { parts } => parts.as_slice().is_empty(),
    }
}

fn copy_texts(alloc: Global, texts: &Texts) -> Result<Texts, AllocError>
    ensures { IfOk result (λ copy. copy ≡ texts.now) }
{
    let mut copies = Vec::new(alloc);
    for text in texts.as_slice() {
        copies.push(Text::copy(alloc, text.as_str())?)?;
    }
    Ok(Texts::from_vec(copies))
}

/// A copy of a shape.
pub(crate) fn copy_shape(alloc: Global, shape: &Shape) -> Result<Shape, AllocError>
    ensures { IfOk result (λ copy. copy ≡ shape.now) }
{
    let copy = match shape {
        Shape::Block { lo, hi } => Shape::Block { lo: *lo, hi: *hi },
        Shape::Sphere { centre, radius } => Shape::Sphere {
            centre: *centre,
            radius: *radius,
        },
        Shape::Cylinder {
            axis,
            centre,
            radius,
            lo,
            hi,
        } => Shape::Cylinder {
            axis: *axis,
            centre: *centre,
            radius: *radius,
            lo: *lo,
            hi: *hi,
        },
        Shape::Union { parts } => Shape::Union {
            parts: copy_texts(alloc, parts)?,
        },
        Shape::Intersect { parts } => Shape::Intersect {
            parts: copy_texts(alloc, parts)?,
        },
    };
    Ok(copy)
}
