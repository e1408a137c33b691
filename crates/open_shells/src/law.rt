//! What holds of open shells and their certificates because each sound one has a certificate.

ghost use Rattle.open_certificate.specs.Laws.{SoundExactlyWhereAccepted};

/// Soundness and completeness: an open shell is sound exactly where some certificate is accepted for it.
pub fn sound_exactly_where_accepted()
    ensures { SoundExactlyWhereAccepted }
{}
