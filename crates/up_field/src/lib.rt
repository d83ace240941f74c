//! Numbers modulo 2^255 - 19 and modulo the order of the base point, points of edwards25519, and their encoding (RFC 8032).
//!
//! `comb` multiplies the base point by secret numbers, `joint` adds two multiples by public ones, and `halves` those of a point
//! whose multiples are at hand. `encode` and `decode` are
//! the 32 bytes of a point, `order` and `clamp` what is computed of scalars.
#![tactic(auto)]

pub mod affine;
pub mod bytes;
pub mod cached;
pub mod canonical;
pub mod centre;
pub mod clamp;
pub mod comb;
pub mod comb_table;
pub mod decode;
pub mod encode;
pub mod far_table;
pub mod halves;
pub mod joint;
pub mod limbs;
pub mod linear;
pub mod odd_table;
pub mod order;
pub mod pick;
pub mod points;
pub mod power;
pub mod products;
pub mod same;
pub mod scalar;
pub mod sides;
pub mod sparse;
pub mod squares;
pub mod terms;
pub mod words;
