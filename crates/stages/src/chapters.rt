//! The chapters of a page.

/// What a page may have.
#[derive(Clone, Copy, PartialEq, Eq)]
pub enum Chapter {
    /// The tokens.
    Tokens,
    /// The steps of the derivation.
    Derivation,
    /// The tree, indented.
    Tree,
    /// The derivation tree and the tree, as pictures.
    Svg,
    /// The code beside its lines, or on paper below them.
    Code,
    /// The operations beside the code.
    Operations,
    /// The control flow of each function.
    Flow,
    /// What is known before a match.
    Bounds,
}

/// The chapters in the order of a page, with their names, which are those of the options that show them alone.
pub const CHAPTERS: [(&str, Chapter); 8] = [
    ("tokens", Chapter::Tokens),
    ("derivation", Chapter::Derivation),
    ("tree", Chapter::Tree),
    ("svg", Chapter::Svg),
    ("code", Chapter::Code),
    ("operations", Chapter::Operations),
    ("flow", Chapter::Flow),
    ("bounds", Chapter::Bounds),
];

/// Some chapters.
#[derive(Clone, Copy)]
pub struct Chapters {
    // by their order
    chosen: [bool; CHAPTERS.len()],
}

impl Chapters {
    /// Returns those of a page for which none are listed.
    pub fn usual() -> Chapters {
        let mut chapters = Chapters::none();
        for chapter in [Chapter::Code, Chapter::Flow, Chapter::Bounds] {
            chapters.choose(chapter);
        }
        chapters
    }

    /// Returns those that a word lists, with commas between their names, if each is one, and is there once.
    pub fn listed(word: &str) -> Option<Chapters> {
        let mut chapters = Chapters::none();
        for name in word.split(',') {
            let found = CHAPTERS.iter().find(|known| known.0 == name);
            let chapter = found?.1;
            if chapters.has(chapter) {
                return None;
            }
            chapters.choose(chapter);
        }
        Some(chapters)
    }

    /// Returns no chapters.
    fn none() -> Chapters {
        Chapters {
            chosen: [false; CHAPTERS.len()],
        }
    }

    /// Reports whether this chapter is one of them.
    pub fn has(&self, chapter: Chapter) -> bool {
        self.chosen.get(chapter as usize) == Some(&true)
    }

    /// Makes this chapter one of them.
    fn choose(&mut self, chapter: Chapter) {
        if let Some(place) = self.chosen.get_mut(chapter as usize) {
            *place = true;
        }
    }
}
