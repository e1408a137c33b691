//! Statuses and texts of replies.

ghost use Rattle.command_replies.specs.Answer.{code_of};
ghost use Rattle.command_replies.specs.Texts.{bad_file_line, fail_line};
ghost use Rattle.file_replies.specs.Due.{OfExtract};
ghost use Rattle.mend_commands.specs.Due.{OfMend};
ghost use Rattle.tried_remedies.specs.Tried.{AreTried};
ghost use Rattle.std.specs.Prelude.{◌≡◌, IfOk};

use command_replies::{Answer, Reply, bad_file, failed};
use file_replies::extract_solid;
use iges_base::{ItemList, NoMemory};
use iges_lines::LineFault;
use iges_params::File;
use mend_commands::{Choice, mend_solid};
use shell_change::{Known, Remedy};
use solid_data::{Failing, ShellAt, Solid};
use std::alloc::Global;
use tried_remedies::tried_remedies;

/// The status of an answer.
pub fn status_of(answer: Answer) -> u8
    ensures { result ≡ code_of answer }
{
    answer.code()
}

/// The reply for a file that is refused.
pub fn refused_file(alloc: Global, fault: LineFault) -> Result<Reply, NoMemory>
    ensures { IfOk result (λ reply. reply.text ≡ bad_file_line fault) }
{
    bad_file(alloc, fault)
}

/// The reply for a rule that fails.
pub fn failing_reply(alloc: Global, failing: Failing) -> Result<Reply, NoMemory>
    ensures { IfOk result (λ reply. reply.text ≡ fail_line failing) }
{
    failed(alloc, failing)
}

/// The reply to `mend`.
pub fn mending_reply(alloc: Global, file: File, no: u32, choice: Choice) -> Result<Reply, NoMemory>
    ensures { IfOk result (λ reply. OfMend no file reply.answer reply.text) }
{
    let Reply { answer, text } = mend_solid(alloc, file, no, choice)?;
    Ok(Reply { answer, text })
}

/// The reply to `extract`.
pub fn extract_reply(alloc: Global, file: File, no: u32) -> Result<Reply, NoMemory>
    ensures { IfOk result (λ reply. OfExtract no file reply.answer reply.text) }
{
    extract_solid(alloc, file, no)
}

/// The remedies of a shell.
pub fn remedies_told(
    alloc: Global,
    solid: &Solid,
    known: &Known,
    shell: ShellAt,
) -> Result<ItemList<Remedy>, NoMemory>
    ensures { IfOk result (λ remedies. AreTried solid.now known.now.geometry shell remedies) }
{
    tried_remedies(alloc, solid, known, shell)
}
