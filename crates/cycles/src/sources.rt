//! What the functions and loops of a source take, from its bytes.

ghost use Rattle.std.specs.Prelude.{◌≡◌, IfErr, IfOk};
ghost use Rattle.tokens.specs.Feed.{MayRead};
ghost use Rattle.grammar.specs.Resolved.{IsResolved};
ghost use Rattle.grammar.specs.Tree.{File};
ghost use Rattle.parser.specs.ParsedFiles.{TakesEnough};
ghost use Rattle.parser.specs.Segment.{CountsRefusal};
ghost use Rattle.room.specs.Bounds.{IsRefusedSource, goes_by};
ghost use Rattle.trees.specs.Laws.{told_functions, told_trees};
ghost use Rattle.cycles.specs.Files.{AreSpansOf, HasRows};

use crate::counted::Counted;
use crate::loops::{Turn, turns};
use crate::runs::{Run, Runs, all_runs};
use grammar::{ParseFault, Profile};
use parser::parse;
use std::alloc::{AllocError, Global};
use tokens::Feed;
use trees::TreeMaker;

/// What the functions and loops of a source take and ask.
#[derive(Drop)]
pub struct SourceSpans {
    /// The functions, in the order of the source.
    pub runs: Vec<Run>,
    /// Their loops, in the order of the source.
    pub turns: Vec<Turn>,
}

/// Reads a source from the device in one pass, as `parse` does, and returns what its functions and loops take: their
/// cycles, and their questions of the kind that is asked for.
///
/// # Errors
///
/// Those of `parse`. `Memory` if the trees or the rows were refused memory.
#[inline(never)]
pub fn source_spans<F: Feed>(
    alloc: Global,
    feed: &mut F,
    profile: Profile,
    asked: Counted,
) -> Result<SourceSpans, ParseFault>
    requires { MayRead (F.device feed.old) }
    ensures spans { IfOk result (AreSpansOf asked profile (F.device feed.old).to_come) }
    ensures refused { IfErr result (IsRefusedSource profile (F.device feed.old).to_come) }
    ensures taken { TakesEnough result (goes_by profile) (F.device feed.old).to_come (F.device feed.new).to_come }
    ensures counted { CountsRefusal result (F.device feed.old).account (F.device feed.new).account }
{
    let mut maker = TreeMaker::new(alloc, profile);
    let _names = parse(feed, &mut maker)?;
    match spans_of(alloc, &maker, profile, asked) {
        Ok(spans) => Ok(spans),
        Err(AllocError) => Err(ParseFault::Memory),
    }
}

/// Returns what the maker's functions and loops take.
fn spans_of(
    alloc: Global,
    maker: &TreeMaker,
    profile: Profile,
    asked: Counted,
) -> Result<SourceSpans, AllocError>
    ensures { (file : File) → IsResolved file
        → told_functions file.functions file.order ≡ told_trees maker.now.functions
        → IfOk result (HasRows asked profile file) }
{
    let cycles = Runs::of(maker, profile, Counted::Cycles);
    let questions = Runs::of(maker, profile, asked);
    Ok(SourceSpans {
        runs: all_runs(alloc, maker, &cycles, &questions)?,
        turns: turns(alloc, maker, &cycles, &questions)?,
    })
}
