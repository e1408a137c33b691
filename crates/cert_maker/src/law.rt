//! What holds of closed solids and accepted certificates, and of the texts that are made.

ghost use Rattle.cert_maker.specs.BookLaws.{BookTextIsAccepted, MadeHasBook, MadeOrUnmade, NoneUnmadeWhereMade, OneBookText, OneUnmade};
ghost use Rattle.cert_maker.specs.Certified.{CertificateTextIsAccepted, ClosedHasText, OneCertificateText};
ghost use Rattle.cert_maker.specs.Soundness.{AcceptedIsClosed, ClosedExactlyWhereAccepted};

/// Soundness: whatever made a certificate, of any version, each solid that it names is closed where it is accepted.
pub fn soundness()
    ensures { AcceptedIsClosed }
{}

/// Completeness: in a file within its limits, a solid is closed exactly where some certificate that names it is accepted.
pub fn completeness()
    ensures { ClosedExactlyWhereAccepted }
{}

/// The text of the certificate that `certify` makes of a solid of a file whose places hold is accepted, and names the
/// solid alone.
pub fn certificate_text_is_accepted()
    ensures { CertificateTextIsAccepted }
{}

/// A solid of a file has one text of the certificate that `certify` makes.
pub fn one_certificate()
    ensures { OneCertificateText }
{}

/// In a file within its limits, a closed solid has a text of the certificate that `certify` makes.
pub fn closed_has_certificate()
    ensures { ClosedHasText }
{}

/// The text of the book with the certificates of all solids of a file, which `certify_all` makes, is accepted and names
/// them all, where there is one.
pub fn book_text_is_accepted()
    ensures { BookTextIsAccepted }
{}

/// In a file within its limits whose solids can all be certified, there is a text of the book with their certificates.
pub fn made_has_book()
    ensures { MadeHasBook }
{}

/// A file has one text of the book with the certificates of all its solids.
pub fn one_book_text()
    ensures { OneBookText }
{}

/// Of the solids of a file all can be certified together, or one is the first that can't, for one reason, and never
/// both.
pub fn one_unmade()
    ensures one { OneUnmade }
    ensures none { NoneUnmadeWhereMade }
    ensures always { MadeOrUnmade }
{}
