//! The certificates of all solids of a file.

ghost use Rattle.std.specs.Prelude.{◌≡◌, ℕ, ◌+◌, ◌<◌, ◌≤◌, IfOk, IfErr, OnOk, length};
ghost use Rattle.std.specs.List.{AllZip};
ghost use Rattle.brep_walk.specs.Places.{places};
ghost use Rattle.brep_walk.specs.SolidOf.{solid_of};
ghost use Rattle.solid_data.specs.Obligations.{AllHold};
ghost use Rattle.shell_rules.specs.ShellObligations.{solid_obligations};
ghost use Rattle.cert_lines.specs.Written.{book_lines, text_of};
ghost use Rattle.cert_lines.specs.declared.parts.Certificate.{Certificate as AnyCertificate};
ghost use Rattle.cert_lines.specs.declared.version.Version.TheVariants.{Three as EditionThree};
ghost use Rattle.cert_accept.specs.Accepted.{IsAccepted};
ghost use Rattle.cert_maker.specs.Certified.{IsCertificate};
ghost use Rattle.iges_params.specs.Solids.{is_solid_at, solids_of};
ghost use Rattle.cert_maker.specs.Book.{uses_of, IsMade, AllMade, IsCertificateOf, IsSolidFault, IsFaultOf, IsBookFault};

use crate::fault::MakeFault;
use crate::making::certify;
use crate::sharing::name_much;
use brep_walk::{WalkFault, Walker};
use cert_state::use_count;
use iges_base::{EntryNo, NoMemory};
use iges_params::File;
use solid_data::{Failing, Solid};
use std::alloc::Global;
use topo_certificate::{Certificate, Certificates};

/// The most loop uses that the solids of a book may have together.
const USE_LIMIT: u64 = 6_000_000;

/// Why not all solids of a file are certified.
#[derive(Clone, Copy)]
pub enum BookFault {
    /// The file has no solid.
    NoSolid,
    /// A solid isn't closed: the first rule that fails, and where.
    Fails { solid: EntryNo, failing: Failing },
    /// With this solid there are too many loop uses.
    TooMany { solid: EntryNo },
    /// Memory ran out.
    NoMemory,
}

impl From<NoMemory> for BookFault {
    ghost use Rattle.std.specs.Prelude.{◌≡◌};
    ghost use Rattle.cert_maker.specs.declared.book.BookFault.TheVariants.{NoMemory as OutOfMemory};

    ghost from_gives = { λ _ fault. fault ≡ OutOfMemory };

    fn from(_: NoMemory) -> BookFault {
        BookFault::NoMemory
    }
}

fn walked(alloc: Global, walker: &mut Walker<'_>, no: EntryNo) -> Result<Solid, BookFault>
    ensures file { walker.new ≡ walker.old }
    ensures solid { IfOk result (λ s. s ≡ solid_of walker.old no.0) }
    ensures holds { OnOk result (AllHold (places walker.old no.0)) }
    ensures fault { IfErr result (IsFaultOf no.0 (places walker.old no.0)) }
{
    match walker.walk(alloc, no) {
        Ok(solid) => Ok(solid),
        Err(WalkFault::Fails(failing)) => Err(BookFault::Fails { solid: no, failing }),
        Err(WalkFault::NoMemory) => Err(BookFault::NoMemory),
    }
}

fn certified(alloc: Global, no: EntryNo, solid: &Solid) -> Result<Certificate, BookFault>
    ensures certificate { IfOk result (IsCertificate solid.now) }
    ensures holds { OnOk result (AllHold (solid_obligations solid.now)) }
    ensures fault { IfErr result (IsFaultOf no.0 (solid_obligations solid.now)) }
{
    match certify(alloc, solid) {
        Ok(certificate) => Ok(certificate),
        Err(MakeFault::Fails(failing)) => Err(BookFault::Fails { solid: no, failing }),
        Err(MakeFault::NoMemory) => Err(BookFault::NoMemory),
    }
}

/// The certificate of one solid, and how many loop uses there are with its own.
fn solid_part(
    alloc: Global,
    walker: &mut Walker<'_>,
    no: EntryNo,
    used: u64,
) -> Result<(Certificate, u64), BookFault>
    requires few { used ≤ 6000000 }
    ensures file { walker.new ≡ walker.old }
    ensures part { IfOk result (λ p. IsCertificateOf walker.old no.0 p.0) }
    ensures used { IfOk result (λ p. p.1 ≡ used + uses_of walker.old no.0) }
    ensures made { OnOk result (IsMade walker.old used no.0) }
    ensures fault { IfErr result (IsSolidFault walker.old used no.0) }
{
    let solid = walked(alloc, walker, no)?;
    let used = used + use_count(&solid) as u64;
    if used > USE_LIMIT {
        return Err(BookFault::TooMany { solid: no });
    }
    let certificate = certified(alloc, no, &solid)?;
    Ok((certificate, used))
}

// How many loop uses there are with those of a solid, if it can be certified.
fn used_with(
    alloc: Global,
    walker: &mut Walker<'_>,
    no: EntryNo,
    used: u64,
) -> Result<u64, BookFault>
    requires few { used ≤ 6000000 }
    ensures file { walker.new ≡ walker.old }
    ensures part { OnOk result ((c : AnyCertificate) × IsCertificateOf walker.old no.0 c) }
    ensures used { IfOk result (λ with. with ≡ used + uses_of walker.old no.0) }
    ensures made { OnOk result (IsMade walker.old used no.0) }
    ensures fault { IfErr result (IsSolidFault walker.old used no.0) }
{
    let (part, with) = solid_part(alloc, walker, no, used)?;
    drop(part);
    Ok(with)
}

// Certifies the solids of a file one after another, and keeps nothing.
fn certify_in_turn(alloc: Global, file: &File, walker: &mut Walker<'_>) -> Result<(), BookFault>
    requires { walker.old ≡ file.now }
    ensures file { walker.new ≡ walker.old }
    ensures fault { IfErr result (IsBookFault file.now) }
{
    let mut used = 0;
    'entries: for i in 0..file.entry_count() {
        if file.is_solid_at(i) {
            used = used_with(alloc, walker, file.entry_no(i), used)?;
        }
    }
    Ok(())
}

// The certificates of all solids of a file, by a walker of it.
fn certify_each(
    alloc: Global,
    file: &File,
    walker: &mut Walker<'_>,
) -> Result<Certificates, BookFault>
    requires { walker.old ≡ file.now }
    ensures parts { IfOk result (AllZip (IsCertificateOf file.now) (solids_of file.now)) }
    ensures some { IfOk result (λ parts. 0 < length parts) }
    ensures book { IfOk result (λ parts. IsAccepted file.now
        (text_of (book_lines parts)) EditionThree (solids_of file.now)) }
    ensures made { OnOk result (AllMade file.now 0 (solids_of file.now)) }
    ensures fault { IfErr result (IsBookFault file.now) }
{
    let mut parts = Certificates::new(alloc);
    let mut used = 0;
    'entries: for i in 0..file.entry_count() {
        if file.is_solid_at(i) {
            let (part, with) = solid_part(alloc, walker, file.entry_no(i), used)?;
            parts.push(part)?;
            used = with;
        }
    }
    if parts.len() == 0 {
        return Err(BookFault::NoSolid);
    }
    Ok(parts)
}

// The same. Where solids name the same loops again and again, they are first certified in turn: their certificates may need much
// memory, and they may have too many uses together.
fn certify_shared(
    alloc: Global,
    file: &File,
    walker: &mut Walker<'_>,
) -> Result<Certificates, BookFault>
    requires { walker.old ≡ file.now }
    ensures parts { IfOk result (AllZip (IsCertificateOf file.now) (solids_of file.now)) }
    ensures some { IfOk result (λ parts. 0 < length parts) }
    ensures book { IfOk result (λ parts. IsAccepted file.now
        (text_of (book_lines parts)) EditionThree (solids_of file.now)) }
    ensures made { OnOk result (AllMade file.now 0 (solids_of file.now)) }
    ensures fault { IfErr result (IsBookFault file.now) }
{
    if name_much(alloc, file)? {
        certify_in_turn(alloc, file, walker)?;
    }
    certify_each(alloc, file, walker)
}

/// The certificates of all solids of a file, of version 2, in directory order; or the first solid that can't be
/// certified: one that isn't closed, or with which there are more than 6,000,000 loop uses. Their text as a book is
/// accepted and names all solids of the file.
pub fn certify_all(alloc: Global, file: &File) -> Result<Certificates, BookFault>
    ensures parts { IfOk result (AllZip (IsCertificateOf file.now) (solids_of file.now)) }
    ensures some { IfOk result (λ parts. 0 < length parts) }
    ensures book { IfOk result (λ parts. IsAccepted file.now
        (text_of (book_lines parts)) EditionThree (solids_of file.now)) }
    ensures made { OnOk result (AllMade file.now 0 (solids_of file.now)) }
    ensures fault { IfErr result (IsBookFault file.now) }
{
    let mut walker = Walker::new(alloc, file);
    let parts = certify_shared(alloc, file, &mut walker);
    drop(walker);
    parts
}
