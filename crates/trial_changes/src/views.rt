//! What is looked at when a change is told.

use crate::naming::Names;
use crate::seaming::Seams;
use shell_trial::{Facts, Trial};
use trial_seams::Sewn;

/// What is looked at when a change is told.
#[derive(Clone, Copy)]
pub(crate) struct Views<'a> {
    pub(crate) facts: &'a Facts,
    pub(crate) trial: &'a Trial,
    pub(crate) sewn: &'a Sewn,
    pub(crate) names: &'a Names,
    pub(crate) seams: &'a Seams,
}
