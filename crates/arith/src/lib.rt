//! The numbers of the field: operators on 32 bits, degrees, sines, tangents, roots and bearings.
//!
//! Nothing here allocates or refuses, and each call is proved to be its definition for every
//! argument; only `bearing` and `bears_within` ask for differences of at most `MOST_DIFFERENCE` metres. docs/numbers.md
//! states the rules in words. The definitions are in `specs/`, one subject a file, for other crates to cite:
//! `value_of` (Op), `degree_of` and `apart` (Degree), `sines` and `tangents` (Table), `sine_at`, `cosine_at`,
//! `sine_of` and `cosine_of` (Circle), `tangent_of` (Tangent), `arctangent_of` (Arctangent), `IsRoot`
//! and `root_of` (Root), `projection_of` and `bearing_of` (Bearing), `IsBearing` (Furthest).
#![tactic(auto)]

mod bearings;
mod circle;
mod degrees;
pub mod laws;
mod operators;
mod roots;
mod tables;
mod tangents;

pub use bearings::{MOST_DIFFERENCE, bearing, bears_within};
pub use circle::{cos, cosine_at, sin, sine_at};
pub use degrees::norm_degree;
pub use operators::{Op, binop};
pub use roots::root;
pub use tangents::{atan, tan};
