//! The paragraphs on a shell, rule by rule: gaps of loops, edges that aren't paired, parts, vertices that aren't linked, and vertices
//! that shells share.
#![tactic(auto)]

mod apart;
mod joins;
mod lines;
mod link;
mod pairs;
mod reach;
mod view;

pub use apart::put_apart;
pub use joins::put_join;
pub use link::put_link;
pub use pairs::put_pair;
pub use reach::put_reach;
pub use view::{Page, ShellView};
