//! How much room the robot of a source needs, from its bytes.

ghost use Rattle.std.specs.Prelude.{◌≡◌, IfErr, IfOk, true};
ghost use Rattle.tokens.specs.Feed.{MayRead};
ghost use Rattle.grammar.specs.ProfileNumbers.{IsProfile};
ghost use Rattle.parser.specs.ParsedFiles.{TakesEnough};
ghost use Rattle.parser.specs.Segment.{CountsRefusal};
ghost use Rattle.room.specs.Bounds.{AreBoundsOf, IsChainOf, IsRefusedSource, goes_by};
ghost use Rattle.room.specs.Rooms.{IsWithin};

use crate::chains::chain_of;
use crate::room::Room;
use crate::tables::need;
use code::main_number;
use grammar::{ParseFault, Profile};
use parser::parse;
use std::alloc::{AllocError, Global};
use tokens::Feed;
use trees::TreeMaker;

/// What is known of a robot before it fights.
#[derive(Clone, Copy, PartialEq, Eq)]
pub struct Bound {
    /// The room that it needs at most, or none if no room is enough: a function can come back to itself.
    pub need: Option<Room>,
    /// Whether its profile gives that room. Then it restarts only where `main` returns.
    pub has_room: bool,
}

/// Reads a source from the device in one pass, as `parse` does, and returns how much room its robot needs.
///
/// # Errors
/// Those of `parse`. `Memory` if the trees of the source were refused memory.
#[inline(never)]
pub fn bounds<F: Feed>(alloc: Global, feed: &mut F, profile: Profile) -> Result<Bound, ParseFault>
    requires { MayRead (F.device feed.old) }
    ensures bounds { IfOk result (AreBoundsOf profile (F.device feed.old).to_come) }
    ensures refused { IfErr result (IsRefusedSource profile (F.device feed.old).to_come) }
    ensures taken { TakesEnough result (goes_by profile) (F.device feed.old).to_come (F.device feed.new).to_come }
    ensures counted { CountsRefusal result (F.device feed.old).account (F.device feed.new).account }
{
    let mut maker = TreeMaker::new(alloc, profile);
    let names = parse(feed, &mut maker)?;
    let main = main_number(names.functions()).unwrap_or(0);
    let need = need(&maker, main, profile);
    let has_room = is_within(need, profile);
    Ok(Bound { need, has_room })
}

/// Reads a source as `bounds` does, and returns the numbers of the functions that call one another where its robot
/// needs most, from `main` on: most frames, if only of these its profile gives too few, and else most words.
///
/// The call of the next one decides what each needs. If a function can come back to itself, it stands twice, the second
/// time as the last one.
///
/// # Errors
/// Those of `bounds`.
pub fn chain<F: Feed>(alloc: Global, feed: &mut F, profile: Profile) -> Result<Vec<u8>, ParseFault>
    requires { MayRead (F.device feed.old) }
    ensures chain { IfOk result (λ chain. IsChainOf profile (F.device feed.old).to_come chain.items) }
    ensures refused { IfErr result (IsRefusedSource profile (F.device feed.old).to_come) }
    ensures taken { TakesEnough result (goes_by profile) (F.device feed.old).to_come (F.device feed.new).to_come }
    ensures counted { CountsRefusal result (F.device feed.old).account (F.device feed.new).account }
{
    let mut maker = TreeMaker::new(alloc, profile);
    let names = parse(feed, &mut maker)?;
    let main = main_number(names.functions()).unwrap_or(0);
    match chain_of(alloc, &maker, main, profile) {
        Ok(chain) => Ok(chain),
        Err(AllocError) => Err(ParseFault::Memory),
    }
}

/// Reports whether the profile gives this room.
fn is_within(need: Option<Room>, profile: Profile) -> bool
    ensures within { result ≡ true → IsWithin profile.words profile.frames need }
    ensures enough { IsWithin profile.words profile.frames need → result ≡ true }
    ensures known { IsProfile profile }
{
    let words = profile.words();
    match need {
        Some(room) => room.words <= words && room.frames <= profile.frames(),
        None => false,
    }
}
