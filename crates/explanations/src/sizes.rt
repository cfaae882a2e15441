//! How much code a source has, and how much of it each function.

use crate::explaining::Found;
use crate::indices::name_at;
use crate::notes::Note;
use crate::searches::Search;
use arrayvec::ArrayVec;
use grammar::MOST_NAMES;

/// The most functions that are named.
const MOST_NAMED: usize = 5;

/// A function: the index of its name's token, and how many instructions it has.
#[derive(Clone, Copy, Default)]
struct Size {
    token: usize,
    instructions: usize,
}

/// Adds how many instructions a source has, by how many these pass the profile's limit, and those of its largest
/// functions, the largest first. The search has found the fault. Behind a further fault nothing is counted.
pub fn add_sizes(note: &mut Note, found: &Found<'_>, search: &mut Search<'_>) {
    let made = search.go_on();
    let (all, most) = (
        search.instructions() as u64,
        u64::from(found.profile.instructions()),
    );
    note.count("the code has ", all, " instructions, ");
    note.count("", all.saturating_sub(most), " more than the ");
    note.count("", most, " of this profile: ");
    let mut sizes = sizes_of(search, made);
    let sizes = sizes.as_mut_slice();
    sizes.sort_unstable_by_key(|size| (usize::MAX - size.instructions, size.token));
    add_largest(note, found, sizes);
    note.add("; leave some out, or make a function of what is repeated");
}

/// Returns how much code each function has that a search came upon, the last first, by how many instructions are made up to
/// the end of that.
fn sizes_of(search: &Search<'_>, made: usize) -> ArrayVec<Size, MOST_NAMES> {
    let mut sizes = ArrayVec::new();
    let mut end = made;
    for (token, entry) in search.defined().iter().zip(search.entries()).rev() {
        let _ = sizes.try_push(Size {
            token: *token,
            instructions: end.saturating_sub(*entry),
        });
        end = *entry;
    }
    sizes
}

/// Adds the instructions of the first of these functions.
fn add_largest(note: &mut Note, found: &Found<'_>, sizes: &[Size]) {
    let mut mark = "";
    for size in sizes.get(..MOST_NAMED).unwrap_or(sizes) {
        if let Some(name) = name_at(found.tokens, size.token) {
            note.add(mark);
            note.quote(name.as_str());
            note.count(" ", size.instructions as u64, "");
            mark = ", ";
        }
    }
}
