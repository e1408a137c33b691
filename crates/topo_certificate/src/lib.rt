//! Certificates of closed solids: which lines are legal, and a checker that judges each line by itself.
#![tactic(auto)]

mod checker;
mod law;
mod line_checker;
mod line_start;
mod opening;
mod text;
mod upgrading;

pub use cert_lines::{
    Certificate, Certificates, CornerLine, Corners, EdgePairs, Illegal, Misfit, ReachRows,
    ShellPart, ShellParts, Version, head_line, one_line, one_opening, solid_line, write_book,
    write_certificate,
};
pub use cert_text::CERT_LIMIT;
pub use checker::{Checker, PartStep};
pub use law::{legal_or_first_bad, one_bad_in_part};
pub use opening::{Opening, OpeningStep};
pub use text::check;
pub use upgrading::{UpgradeFault, upgrade};
