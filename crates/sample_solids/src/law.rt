//! What holds of the samples by their definition.

ghost use Rattle.sample_solids.specs.Laws.{SamplesAreClosed, SamplesAreAccepted, SamplesAreWithin, SamplesHaveTexts, SamplesReadBack};

/// Each sample is a file that can be made, and its solid 1 is closed: a mesh of n n faces, 2 n n edges and n n
/// vertices, for which some certificate is accepted.
pub fn samples_are_closed()
    ensures closed { SamplesAreClosed }
    ensures accepted { SamplesAreAccepted }
{}

/// Each sample has a canonical text, which has at most `FILE_LIMIT` bytes and is read as that sample.
pub fn samples_read_back()
    ensures within { SamplesAreWithin }
    ensures reads { SamplesReadBack }
    ensures some { SamplesHaveTexts }
{}
