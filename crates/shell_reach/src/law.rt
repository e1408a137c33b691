//! What holds of rows that reach faces.

ghost use Rattle.shell_reach.specs.Laws.{OneReachOrder, SomeReachOrder};

/// A shell has one list of rows that reaches all its faces breadth first: that of `reach`.
pub fn one_reach_order()
    ensures { OneReachOrder }
{}

/// A shell with a face, whose edges are paired and whose faces are all reached, has such a list.
pub fn some_reach_order()
    ensures { SomeReachOrder }
{}
