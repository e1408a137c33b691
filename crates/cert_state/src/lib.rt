//! How far the lines of a certificate have come in a shell, and which line fits after them.
#![tactic(auto)]

mod corners;
mod due;
mod fitting;
mod points;
mod ring;
mod shell_state;
mod tallies;
mod uses;

pub use corners::{fitting_corner, fitting_point};
pub use due::Due;
pub use fitting::{fitting_edge, fitting_face, is_above, named_row, turn_of};
pub use ring::turns_to;
pub use shell_state::ShellState;
pub use tallies::{Sizes, sizes_of};
pub use uses::{limit_of, loop_count, use_count};
