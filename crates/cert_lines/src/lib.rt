//! The lines of a certificate: how they are spelled, how they are read, and the text of a certificate given by its parts.
#![tactic(auto)]

mod counts;
mod cutting;
mod law;
mod leading;
mod opening;
mod parsed;
mod parts;
mod version;
mod writing;

pub use cert_text::{Illegal, Misfit};
pub use counts::{ShellCounts, TallyCounts};
pub use cutting::{first_ended, first_line};
pub use law::{lines_are_decided, one_line, one_opening};
pub use leading::{leading_edge, leading_reach};
pub use opening::{at_line, head_line, read_opening, solid_line};
pub use parsed::{Judged, ParsedLine, judge};
pub use parts::{Certificate, Certificates, EdgePairs, ReachRows, ShellPart, ShellParts};
pub use solid_data::{Corner as CornerLine, Corners};
pub use version::{Version, head_text};
pub use writing::{
    from_one, put_head_line, put_rows, put_tally_line, write_book, write_certificate,
};
