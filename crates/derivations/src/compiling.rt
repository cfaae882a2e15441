//! What a source compiles to.

ghost use Rattle.std.specs.Prelude.{◌≡◌, ◌≢◌, ℕ, IfErr, IfOk, IfSome, List, None, Some, length};
ghost use Rattle.derivations.specs.Compiling.{IsCompiled, IsCompiledFrom, IsFirstFault};
ghost use Rattle.derivations.specs.Columns.{token_positions};
ghost use Rattle.derivations.specs.Positions.{ArePositions};
ghost use Rattle.parser.specs.Segment.{CountsRefusal};
ghost use Rattle.tokens.specs.Feed.{MayRead};
ghost use Rattle.tokens.specs.Tokens.{tokens};

use crate::addresses::{SourcePositions, lines};
use code::{Maker, Program};
use grammar::{ParseFault, Pools, Profile};
use parser::parse;
use tokens::{Feed, MemoryFeed, WINDOW_BYTES};

/// What a source compiles to: its program, and its names, which the program hasn't.
#[derive(Drop)]
pub struct Compiled {
    /// The program.
    pub program: Program,
    /// The names of its externals, functions and variables.
    pub names: Pools,
}

/// Compiles the source of a feed by a profile, as the main program does: returns its program and names.
///
/// The page and all tools compile by it. It asks for no memory, since the page in a browser has none to ask for.
///
/// # Errors
/// `Source` with the first fault; `Device` if the feed failed before that, or the end, was known.
pub fn compile<F: Feed>(profile: Profile, feed: &mut F) -> Result<Compiled, ParseFault>
    requires ready { MayRead (F.device feed.old) }
    ensures compiles { IfOk result (λ made. (bytes : List ℕ) → (F.device feed.old).to_come ≡ Some bytes
        → IsCompiled profile bytes made) }
    ensures fault { IfErr result (λ fault. (bytes : List ℕ) → (F.device feed.old).to_come ≡ Some bytes
        → IsFirstFault profile bytes fault) }
    ensures memory { IfErr result (λ fault. fault ≢ ParseFault.Memory) }
    ensures counted { CountsRefusal result (F.device feed.old).account (F.device feed.new).account }
{
    let mut maker = Maker::new(profile);
    let names = parse(feed, &mut maker)?;
    let program = maker.finish(&names);
    Ok(Compiled { program, names })
}

/// What a source compiles to, and where in it each instruction comes from.
#[derive(Drop)]
pub struct CompiledSource {
    /// The program.
    pub program: Program,
    /// The names of its externals, functions and variables.
    pub names: Pools,
    /// The position of each instruction, as `positions_of` finds them.
    pub positions: Option<SourcePositions>,
}

/// Compiles a source in memory by a profile, as `compile` does, and finds the positions of its instructions.
///
/// # Errors
/// `Source` with the first fault.
pub fn compile_source(profile: Profile, source: &[u8]) -> Result<CompiledSource, ParseFault>
    ensures compiles { IfOk result (λ made.
        IsCompiled profile source.now (record { program = made.program; names = made.names })) }
    ensures fault { IfErr result (IsFirstFault profile source.now) }
    ensures positions { IfOk result (λ made. IfSome made.positions (λ positions.
        ArePositions made.program.profile (tokens source.now) (token_positions source.now) positions)) }
    ensures found { IfOk result (λ made. made.positions ≢ None) }
{
    let mut feed = MemoryFeed::new(source, WINDOW_BYTES);
    let Compiled { program, names } = compile(profile, &mut feed)?;
    let positions = positions_of(&program, source);
    Ok(CompiledSource {
        program,
        names,
        positions,
    })
}

/// Finds the position of each instruction of a program in the source that it was compiled from: that of the token that
/// its action comes from. `None` only for another source, and for one of which these are not as many as the program
/// has.
pub fn positions_of(program: &Program, source: &[u8]) -> Option<SourcePositions>
    ensures each { IfSome result (λ positions. length positions ≡ length program.now.instructions) }
    ensures positions { IfSome result (λ positions.
        ArePositions program.now.profile (tokens source.now) (token_positions source.now) positions) }
    ensures found { IsCompiledFrom program.now source.now → result ≢ None }
{
    let count = program.instructions().len();
    let positions = lines(source, program.profile())?;
    if positions.len() == count {
        Some(positions)
    } else {
        None
    }
}
