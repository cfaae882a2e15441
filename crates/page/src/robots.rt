//! Robots: names and sources, kept in memory that the caller lends.

ghost use Rattle.std.specs.Prelude.{◌≡◌, ◌≤◌, IfSome, IsSome, IsUtf8, length, take};
ghost use Rattle.page.specs.Robots.{name_bytes, source_bytes};

/// The most bytes of a name.
pub const NAME_MAX: usize = 255;

/// The most bytes of a source: one more than a source may have, so that the engine itself refuses one that is too long.
pub const SOURCE_MAX: usize = 1_048_577;

/// A robot: its name is the first `name_size` bytes of `name`, and its source the first `source_size` of `source`. A
/// greater number than there are means all.
#[repr(C)]
#[derive(Drop)]
pub struct RobotFile {
    /// How many bytes the name has.
    pub name_size: u32,
    /// How many bytes the source has.
    pub source_size: u32,
    /// The name, and what lies after it.
    pub name: [u8; NAME_MAX],
    /// The source, and what lies after it.
    pub source: [u8; SOURCE_MAX],
}

impl RobotFile {
    /// Returns the name, if it is a text.
    pub fn name(&self) -> Option<&str>
        ensures name { IfSome result (λ name. name.now ≡ name_bytes self.now) }
        ensures text { IsUtf8 (name_bytes self.now) → IsSome result }
        ensures no_text { IsSome result → IsUtf8 (name_bytes self.now) }
    {
        let size = (self.name_size as usize).min(NAME_MAX);
        str::from_utf8(&self.name[..size]).ok()
    }

    /// Returns the bytes of the source.
    pub fn source(&self) -> &[u8]
        ensures { result.now ≡ source_bytes self.now }
    {
        let size = (self.source_size as usize).min(SOURCE_MAX);
        &self.source[..size]
    }
}
