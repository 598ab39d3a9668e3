//! Sums and comparisons of bytes, many at once (`std::simd`).
//!
//! It promises that the one's complement sum and the mask of equal tags are those of their definitions, for every slice. It stands on `and_policy`,
//! which defines the sum beside the outer headers.
#![tactic(auto)]

mod blocks;
mod sum;
mod tags;

pub use sum::{folded, ones_sum, words_sum};
pub use tags::tags_equal;
