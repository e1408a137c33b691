//! Why no certificate was made.

/// Why no certificate of a solid was made: the solid isn't closed, with the first rule on its shells that fails and
/// where; or memory ran out.
pub use shell_rules::CheckFault as MakeFault;
