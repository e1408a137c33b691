//! The maker of certificates, and verdicts: a certificate is accepted only for closed solids, and each closed solid has one.
#![tactic(auto)]

mod book;
mod deciding;
mod fault;
mod judging;
mod law;
mod making;
mod naming;
mod pairs;
mod sharing;
mod shell_part;

pub use book::{BookFault, certify_all};
pub use deciding::verdict;
pub use fault::MakeFault;
pub use law::{
    book_text_is_accepted, certificate_text_is_accepted, closed_has_certificate, completeness,
    made_has_book, one_book_text, one_certificate, one_unmade, soundness,
};
pub use making::certify;
