//! What `unpack` leaves, as laws over any image and store.
//!
//! Each function here has a law as its contract and no body. The laws are about the steps that `unpack` takes, which
//! cnb_launch proves of the command.
#![tactic(auto)]

mod sliced;
mod unpacked;
mod verified;

pub use sliced::sliced_images_unpack;
pub use unpacked::unpacked_images_have_their_rows;
pub use verified::verified_images_unpack;
