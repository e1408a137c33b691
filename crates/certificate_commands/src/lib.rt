//! The commands `verify` and `upgrade` of `igesolid`: what is owed of a certificate, of a file.
#![tactic(auto)]

mod books;
mod checking;
mod decided;
mod held_book;
mod judging;
mod opening;
mod upgrading;
mod verifying;

pub use upgrading::upgrade_certificate;
pub use verifying::verify_certificate;
