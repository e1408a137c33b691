//! Reading any bytes as a file has one right answer.

ghost use Rattle.iges_params.specs.Refusal.{OneReading};

/// All bytes are exactly one file, or are refused with exactly one line and reason.
pub fn every_text_has_one_reading()
    ensures { OneReading }
{}
