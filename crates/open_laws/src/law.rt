//! What a closed solid says of its shells as open ones, and what the certificates of one shell have in common.

ghost use Rattle.open_laws.specs.AlikeLines.{AcceptedDifferInReach};
ghost use Rattle.open_laws.specs.Laws.{ClosedIsSound, ShellsHavePlaces};

/// A closed shell is an open one without a border: where the places of a solid hold so do those of each of its shells, and each
/// shell of a closed solid, of either flag, is sound and has no border row.
pub fn closed_is_sound()
    ensures places { ShellsHavePlaces }
    ensures sound { ClosedIsSound }
{}

/// Two accepted certificates that name one shell have the same lines, but for their reach lines.
pub fn differ_in_reach()
    ensures { AcceptedDifferInReach }
{}
