//! Numbers of the simulator: decimals of six places, streams of random numbers, logarithms and waiting times,
//! and the small types that several crates share.
#![tactic(auto)]

pub mod decimal;
pub mod decimal_text;
pub mod field;
pub mod logarithm;
pub mod name;
pub mod shape;
pub mod steps;
pub mod stream;
pub mod style;
pub mod sweep;
pub mod text;
pub mod texts;
pub mod weights;
pub mod whole;

pub use decimal::{Dec, DecFault};
pub use decimal_text::DecText;
pub use field::Field;
pub use logarithm::{neg_log, wait};
pub use shape::{Bound, Shape};
pub use steps::Steps;
pub use stream::Stream;
pub use style::Style;
pub use sweep::Sweep;
pub use text::Text;
pub use texts::Texts;
pub use weights::weight;

/// What a call that takes memory answers where there is none.
pub type OutOfMemory = std::alloc::AllocError;
