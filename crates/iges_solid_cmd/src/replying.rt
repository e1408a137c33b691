//! The reply of each command for a file.

ghost use Rattle.iges_solid_cmd.specs.Due.{OfCertificate, OfContents, OfEntity, OfShow, OfSolids, OfWhole};
ghost use Rattle.iges_solid_cmd.specs.Forms.{takes_certificate};
ghost use Rattle.command_replies.specs.Outcome.{ReadsCertificate};
ghost use Rattle.command_replies.specs.Replies.{CountAfterCall, IsReply, TakesWithin};
ghost use Rattle.std.specs.Prelude.{◌≡◌, IfOk, IsErrOf, IsFalse, IsTrue};

use crate::certifying::{certify_solid, certify_solids};
use crate::compacting::compact_solid;
use crate::form::{CertificateCommand, Command, EntityCommand, FileCommand, WholeCommand};
use crate::listing::list_solids;
use crate::showing::show_solid;
use cert_text::CERT_LIMIT;
use certificate_commands::{upgrade_certificate, verify_certificate};
use command_replies::{Reply, Stop};
use file_replies::extract_solid;
use iges_base::NoMemory;
use iges_io::Source;
use iges_params::File;
use open_commands::{certify_shell, verify_shell};
use orient_commands::{orient_solid, verify_orientation};
use std::alloc::Global;

// The numbers of a file's solids; the file isn't needed any more.
fn listed(alloc: Global, file: File) -> Result<Reply, NoMemory>
    ensures { IfOk result (λ reply. OfSolids file reply.answer reply.text) }
{
    let reply = list_solids(alloc, &file);
    file.memory().release(file);
    reply
}

// What a solid of a file is made of; the file isn't needed any more.
fn shown(alloc: Global, file: File, no: u32) -> Result<Reply, NoMemory>
    ensures { IfOk result (λ reply. OfShow no file reply.answer reply.text) }
{
    let reply = show_solid(alloc, &file, no);
    file.memory().release(file);
    reply
}

// The reply to a command for all of a file.
fn whole_reply(alloc: Global, command: WholeCommand, file: File) -> Result<Reply, NoMemory>
    ensures { IfOk result (λ reply. OfWhole command file reply.answer reply.text) }
{
    match command {
        WholeCommand::Solids => listed(alloc, file),
        WholeCommand::CertifyAll => certify_solids(alloc, file),
    }
}

// The reply to a command for the solid or the shell of an entry.
fn entity_reply(
    alloc: Global,
    command: EntityCommand,
    no: u32,
    file: File,
) -> Result<Reply, NoMemory>
    ensures { IfOk result (λ reply. OfEntity command no file reply.answer reply.text) }
{
    match command {
        EntityCommand::Show => shown(alloc, file, no),
        EntityCommand::Certify => certify_solid(alloc, file, no),
        EntityCommand::Extract => extract_solid(alloc, file, no),
        EntityCommand::Open => certify_shell(alloc, file, no),
        EntityCommand::Orient => orient_solid(alloc, file, no),
        EntityCommand::Compact => compact_solid(alloc, file, no),
    }
}

// The reply to a command for a file and a certificate.
fn certificate_reply<C: Source>(
    alloc: Global,
    command: CertificateCommand,
    file: File,
    cert: &mut C,
) -> Result<Reply, Stop>
    requires { C.can_read cert.old }
    ensures found { IfOk result (IsReply (λ certificate. OfCertificate command certificate file)
        (C.left cert.old)) }
    ensures whole { IfOk result (λ reply. ReadsCertificate (C.left cert.new) reply.answer) }
    ensures count { CountAfterCall (C.faults cert.old) (C.faults cert.new) result }
    ensures taken { TakesWithin CERT_LIMIT (C.left cert.old) (C.left cert.new) result }
{
    match command {
        CertificateCommand::Verify => verify_certificate(alloc, file, cert),
        CertificateCommand::Upgrade => upgrade_certificate(alloc, file, cert),
        CertificateCommand::OpenVerify => verify_shell(alloc, file, cert),
        CertificateCommand::OrientVerify => verify_orientation(alloc, file, cert),
    }
}

/// The reply to a command for a file, and for a certificate if the command takes one.
pub fn file_reply<C: Source>(
    alloc: Global,
    command: FileCommand,
    file: File,
    cert: &mut C,
) -> Result<Reply, Stop>
    requires { C.can_read cert.old }
    ensures found { IfOk result (IsReply (λ certificate. OfContents command certificate file)
        (C.left cert.old)) }
    ensures whole { IsTrue (takes_certificate (Command.File command))
        → IfOk result (λ reply. ReadsCertificate (C.left cert.new) reply.answer) }
    ensures count { CountAfterCall (C.faults cert.old) (C.faults cert.new) result }
    ensures taken { TakesWithin CERT_LIMIT (C.left cert.old) (C.left cert.new) result }
    ensures reads { IsErrOf result Stop.ReadFault
        → IsTrue (takes_certificate (Command.File command)) }
    ensures unread { IsFalse (takes_certificate (Command.File command)) → cert.new ≡ cert.old }
{
    match command {
        FileCommand::Whole(command) => Ok(whole_reply(alloc, command, file)?),
        FileCommand::Entity(command, no) => Ok(entity_reply(alloc, command, no, file)?),
        FileCommand::Certificate(command) => certificate_reply(alloc, command, file, cert),
    }
}
