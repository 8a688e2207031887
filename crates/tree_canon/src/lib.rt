//! File trees as values, and the canonical bytes that spell them: each tree has one spelling, and each spelling
//! has one tree. docs/FORMATS.md describes the bytes.
#![tactic(auto)]

mod building;
mod copying;
mod decoder;
mod digest;
mod event;
mod fault;
mod field;
mod fitting;
mod judging;
mod next_field;
mod node;
mod parts;
mod rules;
mod scan;
mod scanner;
mod spelling;
mod tree;

pub use decoder::{Decoder, decode};
pub use digest::Digest;
pub use event::{Event, Step};
pub use fault::{DecodeFault, Reason, TreeFault};
pub use fitting::is_target;
pub use judging::{Judged, Judging, judge};
pub use node::{Named, Node};
pub use scan::Scan;
pub use spelling::{TreePieces, encode};
pub use tree::Tree;
