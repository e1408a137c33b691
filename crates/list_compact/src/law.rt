//! Laws of dropped items.

ghost use Rattle.list_compact.specs.Laws.{DroppedIsMade, DroppedIsNotRefused, ExtractedIsFaultless, PlacesStillHold};

/// No entry of an extracted file has a fault in it.
pub fn extracted_is_faultless()
    ensures { ExtractedIsFaultless }
{}

/// What is extracted of a file that can be made can be made too once its unused items are dropped.
pub fn dropped_is_made()
    ensures { DroppedIsMade }
{}

/// Once the unused items of an extracted file are dropped, its solid can be extracted again.
pub fn dropped_is_not_refused()
    ensures { DroppedIsNotRefused }
{}

/// The places of a solid that hold still hold once unused items are dropped.
pub fn places_still_hold()
    ensures { PlacesStillHold }
{}
