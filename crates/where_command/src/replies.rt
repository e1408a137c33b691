//! The replies to what is asked of a file.

ghost use Rattle.solid_hints.specs.ShellHints.{ShellRemedies};
ghost use Rattle.std.specs.Prelude.{◌≡◌, IfOk, List};
ghost use Rattle.where_command.specs.Due.{OfContents, OfOverview, OfSolid, answer_to, answer_where};

use crate::asked::Asked;
use command_replies::{Answer, Reply};
use iges_base::{EntryNo, NoMemory};
use solid_data::Verdict;
use std::alloc::Global;
use where_overview::tell_all;
use where_places::PlacedFile;
use where_solids::tell;
use where_text::Listing;

fn answer_to(verdict: Verdict) -> Answer
    ensures { result ≡ answer_to verdict }
{
    match verdict {
        Verdict::Closed => Answer::Done,
        Verdict::Fails(_) => Answer::No,
    }
}

// The answer, by whether all solids are closed.
fn answer_where(closed: bool) -> Answer
    ensures { result ≡ answer_where closed }
{
    if closed { Answer::Done } else { Answer::No }
}

fn solid_reply(
    alloc: Global,
    placed: &PlacedFile,
    no: u32,
    listing: Listing,
) -> Result<Reply, NoMemory>
    ensures { IfOk result (λ reply. (remedies : List ShellRemedies)
        × OfSolid no listing placed.now remedies reply.answer reply.text) }
{
    let told = tell(alloc, placed, EntryNo(no), listing)?;
    Ok(Reply {
        answer: answer_to(told.verdict),
        text: told.text,
    })
}

fn overview_reply(alloc: Global, placed: &PlacedFile) -> Result<Reply, NoMemory>
    ensures { IfOk result (λ reply. OfOverview placed.now reply.answer reply.text) }
{
    let told = tell_all(alloc, placed)?;
    Ok(Reply {
        answer: answer_where(told.all_closed),
        text: told.text,
    })
}

/// The reply to what is asked of a file.
pub fn contents_reply(alloc: Global, asked: Asked, placed: &PlacedFile) -> Result<Reply, NoMemory>
    ensures { IfOk result (λ reply. (remedies : List ShellRemedies)
        × OfContents asked placed.now remedies reply.answer reply.text) }
{
    match asked {
        Asked::Overview => overview_reply(alloc, placed),
        Asked::Solid(no, listing) => solid_reply(alloc, placed, no, listing),
    }
}
