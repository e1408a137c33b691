//! What holds of every file in the layout of the fixed form.
#![tactic(auto)]

mod law;

pub use law::{
    good_file_stays, made_file_is_read, made_file_stays, shifted_line_is_refused,
    unchanged_file_stays,
};
