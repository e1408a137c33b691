//! What is told of a solid that isn't mended.

ghost use Rattle.command_replies.specs.Texts.{fail_line};
ghost use Rattle.mend_commands.specs.Due.{unmended_line};
ghost use Rattle.std.specs.Prelude.{◌≡◌, ◌++◌, IfOk, OnOk};

use command_replies::{Answer, Reply, failed};
use iges_base::{NoMemory, Out, write_number};
use solid_data::Failing;
use solid_mend::Unmended;
use std::alloc::Global;

fn put_unmended(out: &mut Out, why: Unmended) -> Result<(), NoMemory>
    ensures { OnOk result (out.new ≡ out.old ++ unmended_line why) }
{
    match why {
        Unmended::Stuck => out.put(b"stuck\n"),
        Unmended::NeedsFaces(count) => {
            out.put(b"needs faces ")?;
            write_number(out, count as u64)?;
            out.put(b"\n")
        }
        Unmended::Unsure(number) => {
            out.put(b"unsure ")?;
            write_number(out, u64::from(number))?;
            out.put(b"\n")
        }
    }
}

/// The reply for a solid that fails by this rule and isn't mended.
pub fn unmended(alloc: Global, failing: Failing, why: Unmended) -> Result<Reply, NoMemory>
    ensures { IfOk result (λ reply. (reply.answer ≡ Answer.No)
        × (reply.text ≡ fail_line failing ++ unmended_line why)) }
{
    let first = failed(alloc, failing)?;
    let mut out = Out::new(alloc);
    out.put(first.text.as_slice())?;
    put_unmended(&mut out, why)?;
    Ok(Reply {
        answer: Answer::No,
        text: out.into_bytes(),
    })
}
