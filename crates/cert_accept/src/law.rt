//! What holds of accepted certificates by their definition.

ghost use Rattle.cert_accept.specs.BookLaws.{OneRefusal, NoneBadWhereAccepted, AcceptedOrBad, OneReading};
ghost use Rattle.cert_accept.specs.Accepted.{AcceptedIsChecked};
ghost use Rattle.cert_accept.specs.Laws.{UpgradedIsAccepted, AcceptedDifferInReach};
ghost use Rattle.cert_accept.specs.Small.{AcceptedIsSmall, UpgradedIsSmall};

/// A certificate is accepted exactly where it opens with the solid's number, the places hold, the loops join, the
/// vertices are apart and the further lines are legal.
pub fn accepted_is_checked()
    ensures { AcceptedIsChecked }
{}

/// Upgrading keeps acceptance: in a file within its limits, what is accepted stays accepted as `upgrade` gives it back for
/// a solid that it names, and names the same solids.
pub fn upgrading_keeps_acceptance()
    ensures { UpgradedIsAccepted }
{}

/// Two accepted certificates of one version that name the same solids are the same line by line, but that a line which
/// shows how a face is reached may name another row: all other lines are fixed by the solids.
pub fn differ_in_reach()
    ensures { AcceptedDifferInReach }
{}

/// A book is accepted, as parts that it has in one way, or one thing is its first bad one, and never both.
pub fn one_book()
    ensures one { OneRefusal }
    ensures none { NoneBadWhereAccepted }
    ensures always { AcceptedOrBad }
    ensures reading { OneReading }
{}

/// No accepted certificate is too large to be read: where a file has at most `FILE_LIMIT` bytes, a certificate of one of
/// its solids that is accepted has at most `CERT_LIMIT` bytes.
pub fn accepted_is_small()
    ensures { AcceptedIsSmall }
{}

/// No accepted certificate of version 1 is too large once it is upgraded.
pub fn upgraded_is_small()
    ensures { UpgradedIsSmall }
{}
