//! What a reply is, and the replies on bad files, failing rules and certificates.

ghost use Rattle.command_replies.specs.Texts.{accepted_line, bad_file_line, fail_line, fail_text, illegal_line, illegal_number, illegal_word, no_solid_line, solid_fail_text};
ghost use Rattle.std.specs.Prelude.{◌≡◌, ◌++◌, [], IfOk};

use crate::answer::Answer;
use cert_text::Illegal;
use iges_base::{Bytes, EntryNo, NoMemory, Out, write_number};
use iges_lines::LineFault;
use solid_data::Failing;
use std::alloc::Global;

/// What is to be answered, and the text that is to be written.
#[derive(Drop)]
pub struct Reply {
    /// How the command ends, where the text can be written.
    pub answer: Answer,
    /// All that is to be written.
    pub text: Bytes,
}

/// Why there is no reply.
#[derive(Clone, Copy)]
pub enum Stop {
    /// A read of the file or of the certificate failed.
    ReadFault,
    /// Memory ran out.
    OutOfMemory,
}

impl From<NoMemory> for Stop {
    ghost use Rattle.command_replies.specs.declared.reply.Stop.TheVariants.{OutOfMemory};
    ghost use Rattle.std.specs.Prelude.{◌≡◌};

    ghost from_gives = { λ _ e. e ≡ OutOfMemory };

    fn from(_: NoMemory) -> Stop {
        Stop::OutOfMemory
    }
}

/// The reply for more bytes than a limit.
pub fn too_large() -> Reply
    ensures { (result.answer ≡ Answer.TooLarge) × (result.text ≡ []) }
{
    Reply {
        answer: Answer::TooLarge,
        text: Bytes::empty(),
    }
}

/// The reply to words of no listed form: the usage line. It errs only where memory runs out.
pub fn usage_reply(alloc: Global, usage: &[u8]) -> Result<Reply, NoMemory>
    ensures { IfOk result (λ reply. (reply.answer ≡ Answer.Usage) × (reply.text ≡ usage.now)) }
{
    Ok(Reply {
        answer: Answer::Usage,
        text: Bytes::copy(alloc, usage)?,
    })
}

/// The reply for a bad file. It errs only where memory runs out.
pub fn bad_file(alloc: Global, fault: LineFault) -> Result<Reply, NoMemory>
    ensures { IfOk result (λ reply. (reply.answer ≡ Answer.BadFile)
        × (reply.text ≡ bad_file_line fault)) }
{
    let mut out = Out::new(alloc);
    out.put(b"bad file line ")?;
    write_number(&mut out, fault.line)?;
    out.put(b" ")?;
    out.put(fault.reason.word())?;
    out.put(b"\n")?;
    Ok(Reply {
        answer: Answer::BadFile,
        text: out.into_bytes(),
    })
}

// The line of a rule of this name that fails.
fn put_failing(out: &mut Out, name: &str, entity: EntryNo, place: u32) -> Result<(), NoMemory>
    ensures { IfOk result (λ _. out.new ≡ out.old ++ fail_text name.now entity.0 place) }
{
    out.put(b"fail ")?;
    out.put(name.as_bytes())?;
    out.put(b" ")?;
    write_number(out, u64::from(entity.0))?;
    out.put(b" ")?;
    write_number(out, u64::from(place))?;
    out.put(b"\n")
}

/// The reply for a rule of this name that fails of an entity, at a place. It errs only where memory runs out.
pub fn failed_by(
    alloc: Global,
    name: &'static str,
    entity: EntryNo,
    place: u32,
) -> Result<Reply, NoMemory>
    ensures { IfOk result (λ reply. (reply.answer ≡ Answer.No)
        × (reply.text ≡ fail_text name.now entity.0 place)) }
{
    let mut out = Out::new(alloc);
    put_failing(&mut out, name, entity, place)?;
    Ok(Reply {
        answer: Answer::No,
        text: out.into_bytes(),
    })
}

/// The reply for a rule that fails. It errs only where memory runs out.
pub fn failed(alloc: Global, failing: Failing) -> Result<Reply, NoMemory>
    ensures { IfOk result (λ reply. (reply.answer ≡ Answer.No) × (reply.text ≡ fail_line failing)) }
{
    failed_by(alloc, failing.rule.name(), failing.entity, failing.place)
}

/// The reply for a rule that fails of one among many solids. It errs only where memory runs out.
pub fn solid_failed(alloc: Global, no: EntryNo, failing: Failing) -> Result<Reply, NoMemory>
    ensures { IfOk result (λ reply. (reply.answer ≡ Answer.No)
        × (reply.text ≡ solid_fail_text no.0 failing)) }
{
    let mut out = Out::new(alloc);
    out.put(b"solid ")?;
    write_number(&mut out, u64::from(no.0))?;
    out.put(b"\n")?;
    put_failing(&mut out, failing.rule.name(), failing.entity, failing.place)?;
    Ok(Reply {
        answer: Answer::No,
        text: out.into_bytes(),
    })
}

/// The reply for a file without a solid. It errs only where memory runs out.
pub fn no_solid(alloc: Global) -> Result<Reply, NoMemory>
    ensures { IfOk result (λ reply. (reply.answer ≡ Answer.No) × (reply.text ≡ no_solid_line)) }
{
    let mut out = Out::new(alloc);
    out.put(b"no solid\n")?;
    Ok(Reply {
        answer: Answer::No,
        text: out.into_bytes(),
    })
}

fn word_of(bad: Illegal) -> &'static str
    ensures { result.now ≡ illegal_word bad }
{
    match bad {
        Illegal::Misspelt { .. } => "misspelt",
        Illegal::Unfit { .. } => "unfit",
        Illegal::Missing { .. } => "missing",
    }
}

fn line_of(bad: Illegal) -> u64
    ensures { result ≡ illegal_number bad }
{
    match bad {
        Illegal::Misspelt { line } | Illegal::Unfit { line } | Illegal::Missing { line } => line,
    }
}

/// The reply for a line of a certificate that is bad. It errs only where memory runs out.
pub fn illegal(alloc: Global, bad: Illegal) -> Result<Reply, NoMemory>
    ensures { IfOk result (λ reply. (reply.answer ≡ Answer.No) × (reply.text ≡ illegal_line bad)) }
{
    let mut out = Out::new(alloc);
    out.put(b"line ")?;
    write_number(&mut out, line_of(bad))?;
    out.put(b" ")?;
    out.put(word_of(bad).as_bytes())?;
    out.put(b"\n")?;
    Ok(Reply {
        answer: Answer::No,
        text: out.into_bytes(),
    })
}

/// Puts the line of a solid for which a certificate is accepted. It errs only where memory runs out.
pub fn put_accepted(out: &mut Out, no: EntryNo) -> Result<(), NoMemory>
    ensures { IfOk result (λ _. out.new ≡ out.old ++ accepted_line no.0) }
{
    out.put(b"accepted ")?;
    write_number(out, u64::from(no.0))?;
    out.put(b"\n")
}

/// The reply for a certificate that is accepted for one solid. It errs only where memory runs out.
pub fn accepted(alloc: Global, no: EntryNo) -> Result<Reply, NoMemory>
    ensures { IfOk result (λ reply. (reply.answer ≡ Answer.Done)
        × (reply.text ≡ accepted_line no.0)) }
{
    let mut out = Out::new(alloc);
    put_accepted(&mut out, no)?;
    Ok(Reply {
        answer: Answer::Done,
        text: out.into_bytes(),
    })
}
