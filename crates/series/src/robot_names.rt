//! The names of robots.

ghost use Rattle.std.specs.Prelude.{◌≡◌, ◌<◌, [], List, length, map, slice_index_or};
ghost use Rattle.battles.specs.Pairing.{paired};
ghost use Rattle.series.specs.RobotNames.{robot_names};

use sinks::file_name;

/// Returns the name of a robot's file, by the words of all files. A single file is two robots.
#[tactic(auto, using(crate::proofs::TextsLemmas::some_paired))]
pub(crate) fn robot_name<'a>(words: &[&'a str], robot: usize) -> &'a [u8]
    requires { robot < length (paired words.now) }
    ensures { result.now ≡ slice_index_or (robot_names (map (λ word. word.now) words.now)) robot [] }
{
    let file = robot.min(words.len() - 1);
    file_name(words[file].as_bytes())
}
