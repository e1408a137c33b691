//! The parameters of the global section.

use iges_fields::{Delimiters, Values};

/// The global section: the two delimiters, and the values of the parameters from the third on, of which IGES 5.3
/// knows 24 (IGES 5.3, 2.2.4.3). Fewer and more are taken, and each may be left out.
#[derive(Drop)]
pub struct Global26 {
    /// The parameter delimiter and the record delimiter, the first two parameters (IGES 5.3, 2.2.4.3.1 and 2.2.4.3.2).
    pub delims: Delimiters,
    /// The values of the parameters from the third on, in their order (IGES 5.3, 2.2.4.3).
    pub values: Values,
}
