//! Order reasoning: terms under each order of the points that they compare.
//!
//! A point is a number, or an atom that is a number. `specs/Under.antt` says what a term becomes under an order of
//! points, `specs/Rankings.antt` what the orders are, and `specs/OrderSame.antt` when two terms are the same under each.
//! `order_same` tells that, and where it fails the first order that shows it.
//!
//! The laws say that a term means what it means under an order that the valuation meets, and that each valuation meets
//! exactly one: so terms that are the same under each order are equal.
#![tactic(auto)]

mod answers;
mod asked;
mod classes;
mod comparisons;
mod depth;
mod forms;
mod gather;
pub mod laws;
mod places;
mod point;
pub mod points;
pub mod rankings;
mod shortcuts;
mod tries;
pub mod under;

pub use crate::answers::{OrderAnswer, are_order_same, order_same};
pub use crate::point::Point;
pub use crate::rankings::Ranking;
