//! Versions of certificates.

ghost use Rattle.std.specs.Prelude.{◌≡◌};
ghost use Rattle.cert_lines.specs.Line.{words, head};

/// The version of a certificate, which its first line names. In version 2 each shell ends in a line of its counts;
/// version 3 is a book of such certificates, a part for each solid.
#[derive(Clone, Copy)]
pub enum Version {
    One,
    Two,
    Three,
}

/// The first line of a certificate of this version, without its LF.
pub fn head_text(version: Version) -> &'static [u8]
    ensures { result.now ≡ words (head version) }
{
    match version {
        Version::One => b"IGESCERT 1",
        Version::Two => b"IGESCERT 2",
        Version::Three => b"IGESCERT 3",
    }
}
