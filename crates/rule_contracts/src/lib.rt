//! Calls of the reader, of the rules and of the certificate's checker, each passed on with clauses of its own. They are the
//! clauses of the call, or follow from them, so what they refuse the call's own contract refuses. Each edit in must-fail
//! turns one answer.
#![tactic(auto)]

mod certificates;
mod files;
mod shells;

pub use certificates::{edge_is_above, first_number, judged, last_line, next_line, reached_face};
pub use files::{extracted_as, file_of, values_of};
pub use shells::{closes, paired_edges, row_of_shell};
