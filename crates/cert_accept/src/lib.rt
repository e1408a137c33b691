//! Which certificates are accepted for a file, and what is judged of its solids beside their lines.
//!
//! Nothing here makes a certificate, and nothing here depends on what does.
#![tactic(auto)]

mod checking;
mod law;

pub use checking::checked_solid;
pub use law::{
    accepted_is_checked, accepted_is_small, differ_in_reach, one_book, upgraded_is_small,
    upgrading_keeps_acceptance,
};
