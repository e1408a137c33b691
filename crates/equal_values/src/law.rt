//! What canonical texts and keys say.

ghost use Rattle.equal_values.specs.Laws.{CanonicalTextsDecide, KeysDecide};

/// Two values are equal exactly if their canonical texts are the same.
pub fn canonical_texts_decide()
    ensures { CanonicalTextsDecide }
{}

/// Two lists of values have the same keys exactly if they are as long, and the values at each place are equal.
pub fn keys_decide()
    ensures { KeysDecide }
{}
