//! The search for the token of a source's fault, and what it comes upon: one walk finds what is asked of all tokens up to
//! there.

use crate::declarations::Declarations;
use arrayvec::ArrayVec;
use derivations::{Derivation, Event, Located, Meaning, Walk};
use grammar::{Callee, Code, Diagnostic, MOST_NAMES, Profile};

/// Returns the index of the token of a source's fault, which `compile` found by the same profile; the tokens are the
/// source's.
pub fn fault_token(tokens: &[Located], profile: Profile, fault: &Diagnostic) -> usize {
    Search::of(tokens, profile).find(fault)
}

/// Returns the variables that a source declares, which compiles by this profile. The tokens are the source's.
pub fn declared(tokens: &[Located], profile: Profile) -> Declarations {
    let mut search = Search::of(tokens, profile);
    let _ = search.run(None);
    search.declarations
}

/// A search: how far it has come, which functions are defined up to there and where their code begins, which ones are
/// mentioned, and which variables are declared.
#[derive(Drop)]
pub struct Search<'a> {
    tokens: &'a [Located],
    profile: Profile,
    walk: Walk<'a>,
    defined: ArrayVec<usize, MOST_NAMES>,
    entries: ArrayVec<usize, MOST_NAMES>,
    mentioned: [Option<usize>; MOST_NAMES],
    begun: [bool; MOST_NAMES],
    declarations: Declarations,
}

impl<'a> Search<'a> {
    /// Begins before the first of a source's tokens.
    pub fn of(tokens: &'a [Located], profile: Profile) -> Search<'a> {
        Search {
            tokens,
            profile,
            walk: Walk::start(tokens, profile),
            defined: ArrayVec::new(),
            entries: ArrayVec::new(),
            mentioned: [None; MOST_NAMES],
            begun: [false; MOST_NAMES],
            declarations: Declarations::new(),
        }
    }

    /// Returns the index of the token of the source's fault, and stops there: the first that has this fault, or else
    /// the last token.
    pub fn find(&mut self, wanted: &Diagnostic) -> usize {
        if let Some(token) = self.run(Some(wanted.code)) {
            return token;
        }
        let last = self.walk.last();
        match wanted.code {
            Code::FunctionNotDefined => self.undefined().unwrap_or(last),
            // the token of any other fault is refused in the walk, but for one at the end
            _ => last,
        }
    }

    /// Goes on to the first token that has this fault, and returns its index; to the end, or to a token that doesn't fit, if
    /// none has.
    fn run(&mut self, wanted: Option<Code>) -> Option<usize> {
        for _ in 0..u64::MAX {
            match self.walk.step() {
                Event::Named { token, meaning } => self.note(token, meaning),
                Event::Refused { token, code } if wanted == Some(code) => return Some(token),
                _ if self.walk.is_over() => break,
                _ => {}
            }
        }
        None
    }

    /// Goes on behind the fault, to the end or to a token that doesn't fit, and notes the functions that begin there. Returns
    /// how many instructions are made before that token.
    pub fn go_on(&mut self) -> usize {
        let mut made = self.walk.instructions();
        for _ in 0..u64::MAX {
            if self.walk.is_over() {
                break;
            }
            made = self.walk.instructions();
            if let Event::Named {
                token,
                meaning: Meaning::Begins(_),
            } = self.walk.step()
            {
                self.begin(token);
            }
        }
        made
    }

    /// Returns how many instructions the walk has come upon, those of a step that it could not do among them.
    pub fn instructions(&self) -> usize {
        self.walk.instructions()
    }

    /// Returns the source's tokens.
    pub fn tokens(&self) -> &'a [Located] {
        self.tokens
    }

    /// Returns the language profile.
    pub fn profile(&self) -> Profile {
        self.profile
    }

    /// Returns the derivation where the search has stopped.
    pub fn derivation(&self) -> &Derivation<'a> {
        self.walk.derivation()
    }

    /// Returns the indices of the names of functions whose definition has begun, in order.
    pub fn defined(&self) -> &[usize] {
        self.defined.as_slice()
    }

    /// Returns how many instructions there are before the code of each of these.
    pub fn entries(&self) -> &[usize] {
        self.entries.as_slice()
    }

    /// Returns the variables that are declared up to the fault.
    pub fn declarations(&self) -> &Declarations {
        &self.declarations
    }

    /// Notes a function that is mentioned or defined, or a variable that is declared.
    fn note(&mut self, token: usize, meaning: Meaning) {
        match meaning {
            Meaning::Calls(Callee::Function(number)) => self.mention(number, token),
            Meaning::Begins(number) => {
                self.mention(number, token);
                if let Some(begun) = self.begun.get_mut(usize::from(number)) {
                    *begun = true;
                }
                self.begin(token);
            }
            Meaning::External | Meaning::Declares => {
                self.declarations.note(self.tokens, token, meaning);
            }
            Meaning::Mentions(_) | Meaning::Calls(Callee::Intrinsic(_)) | Meaning::Parameter => {}
        }
    }

    /// Notes that the function of a name's token begins.
    fn begin(&mut self, token: usize) {
        let _ = self.defined.try_push(token);
        let _ = self.entries.try_push(self.walk.instructions());
    }

    /// Notes the first mention of a function.
    fn mention(&mut self, number: u8, token: usize) {
        if let Some(mentioned) = self.mentioned.get_mut(usize::from(number)) {
            *mentioned = mentioned.or(Some(token));
        }
    }

    /// Returns the first mention of the earliest mentioned function that isn't defined.
    fn undefined(&self) -> Option<usize> {
        for (number, mentioned) in self.mentioned.iter().enumerate() {
            if mentioned.is_some() && self.begun.get(number) == Some(&false) {
                return *mentioned;
            }
        }
        None
    }
}
