//! Rounds of updates that are drawn from a number, and byte vectors of small manifests.
#![tactic(auto)]

mod byte_vectors;
mod draw;
mod drawing;
mod files;
mod law;
mod making;
mod rounds;
mod shape;
mod values;

pub use byte_vectors::{VectorList, vectors};
pub use draw::Draw;
pub use drawing::{Drawn, draw_round};
pub use law::shape_laws;
pub use making::round;
pub use rounds::Round;
pub use shape::Shape;
