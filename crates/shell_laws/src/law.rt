//! What leaves a shell closed.

ghost use Rattle.shell_laws.specs.Renumbered.{RenumberedStaysClosed};
ghost use Rattle.shell_laws.specs.Turned.{TurnedStaysClosed};

/// A closed shell stays closed if its flag is turned, and with it the direction of each of its edge uses.
pub fn turned_shell_stays_closed()
    ensures { TurnedStaysClosed }
{}

/// A closed shell of a solid is closed in each other solid that has it, under whatever numbers of its edges and vertices.
pub fn renumbered_shell_stays_closed()
    ensures { RenumberedStaysClosed }
{}
