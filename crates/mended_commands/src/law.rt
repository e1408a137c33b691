//! That `mended` has an answer in each file within its limits.

ghost use Rattle.mended_commands.specs.Laws.{SomeMendedAnswer};

/// In a file within its limits some answer is owed of telling how any solid is mended.
pub fn some_mended_answer()
    ensures { SomeMendedAnswer }
{}
