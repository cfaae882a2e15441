//! Hints on declarations: of functions, of parameters and of variables.

use crate::heads::{behind_brackets, is_no_parameter};
use crate::hints::{Hint, by_layout};
use crate::indices::token_at;
use crate::notes::Note;
use crate::scenes::Scene;
use crate::told::spelling_of;
use derivations::{Item, Located, Role};
use grammar::intrinsic_named;
use tokens::{Keyword, Name, Punctuator, Token};

/// The most tokens of a list of names that is quoted.
const MOST_LISTED: usize = 30;

/// Returns the hint on a declaration of a function, which has no block.
pub fn on_prototypes(scene: &Scene<'_>) -> Option<Hint> {
    let is_type = matches!(
        scene.met(),
        Token::Keyword(Keyword::Type | Keyword::Refused)
    );
    if !scene.is_outside() || !is_type {
        return None;
    }
    let name = scene.head()?;
    let behind = behind_brackets(scene.tokens, name)?;
    let is_ended = scene.token(behind) == Token::Punctuator(Punctuator::Semicolon);
    is_ended.then_some(Hint::Text(
        "a function that is defined further down needs no declaration, no prototype: leave out the line",
    ))
}

/// Returns the hint on a reserved word that a variable is declared by.
pub fn on_reserved_names(scene: &Scene<'_>) -> Option<Hint> {
    let is_name = scene.follows(&Token::Keyword(Keyword::Type))
        || scene.follows_mark(Punctuator::Comma) && !scene.kinds.expression && !is_in_list(scene);
    let ends = matches!(
        scene.token(scene.index.saturating_add(1)),
        Token::Punctuator(Punctuator::Comma | Punctuator::Semicolon | Punctuator::Equals)
    );
    (scene.is_word(Keyword::Refused) && is_name && ends).then_some(Hint::Text(
        "this word is reserved: give the variable another name",
    ))
}

/// Signs that stand in a list of parameters in other languages.
static SIGNS: [&str; 9] = [":", "?", "@", ".", "[", "&", "*", ",", ")"];

/// Returns the hint on what a list of parameters has beside names: types, and words and signs of other languages.
pub fn on_parameters(scene: &Scene<'_>) -> Option<Hint> {
    let met = scene.tokens.get(scene.index)?;
    let head = scene.head()?;
    let is_call = intrinsic_named(&scene.name(head)?).is_some();
    let is_listed = is_in_list(scene) || scene.fits_mark(Punctuator::CloseRound);
    if is_call || !scene.is_outside() || !is_listed {
        return None;
    }
    let is_paired = scene.name(scene.index).is_some()
        && (is_other_word(scene, scene.index)
            || is_other_word(scene, scene.index.saturating_sub(1)));
    let is_empty = scene.token(scene.index.saturating_add(1))
        == Token::Punctuator(Punctuator::CloseRound);
    let is_typed = scene.is_word(Keyword::Type) || scene.is_word(Keyword::Refused) && !is_empty;
    let is_other = is_typed || is_paired || is_sign(spelling_of(scene.source, met));
    is_other.then_some(Hint::Head("a list of parameters has names alone, without types", head))
}

/// Reports whether the token of an index is a word that stands beside a parameter in another language.
fn is_other_word(scene: &Scene<'_>, index: usize) -> bool {
    match scene.name(index) {
        Some(name) => is_no_parameter(name.as_bytes()),
        None => false,
    }
}

/// Reports whether a text is a sign that stands in a list of parameters in another language.
fn is_sign(text: &str) -> bool {
    for sign in &SIGNS {
        if sign.as_bytes() == text.as_bytes() {
            return true;
        }
    }
    false
}

/// Returns the hint on declarations: with values, and after statements.
pub fn on_declarations(scene: &Scene<'_>) -> Option<Hint> {
    if scene.is_mark(Punctuator::Equals) && declares(scene) {
        return Some(Hint::Declaration(
            "a declaration gives no value",
            scene.index.saturating_sub(1),
        ));
    }
    if !scene.is_word(Keyword::Type) {
        return None;
    }
    if scene.kinds.statement {
        let words =
            "declarations stand at the beginning of their block, before its statements: move it up, or leave it out, as a variable needs none";
        return Some(by_layout(scene.so_far(), true, "", Hint::Text(words)));
    }
    if scene.follows_mark(Punctuator::Comma) && !scene.kinds.expression {
        return Some(Hint::Types(scene.index));
    }
    None
}

/// Adds that the type of the token of an index stands once in a declaration, and how that is written.
pub fn add_types(note: &mut Note, tokens: &[Located], index: usize) {
    note.add("one `int` is enough: write the type once, before all names: `int ");
    let mut first = index;
    for back in 1..MOST_LISTED {
        let at = index.saturating_sub(back);
        if !is_listed(tokens, at) {
            break;
        }
        first = at;
    }
    let mut own = Note::new();
    let is_made = add_names(&mut own, tokens, first).is_some();
    note.add(if is_made { own.as_str() } else { "a, b" });
    note.add(";`");
}

/// Reports whether a token is one of a list of names: a type, a name or a `,`.
fn is_listed(tokens: &[Located], at: usize) -> bool {
    matches!(
        token_at(tokens, at),
        Token::Keyword(Keyword::Type) | Token::Name(_) | Token::Punctuator(Punctuator::Comma)
    )
}

/// Adds the names of a list up to its `;`, with a `,` between two.
fn add_names(note: &mut Note, tokens: &[Located], first: usize) -> Option<()> {
    for (number, located) in tokens.get(first..)?.iter().enumerate() {
        match located.token {
            Token::Keyword(Keyword::Type) => {}
            Token::Name(name) => note.add(name.as_str()),
            Token::Punctuator(Punctuator::Comma) => note.add(", "),
            Token::Punctuator(Punctuator::Semicolon) => return Some(()),
            _ => return None,
        }
        if number > MOST_LISTED {
            return None;
        }
    }
    None
}

/// Returns the hint on names of a declaration: with a digit in front, with a `-` in them, and without a `,` between
/// them.
pub fn on_declared_names(scene: &Scene<'_>) -> Option<Hint> {
    let is_number = matches!(scene.met(), Token::Constant(_));
    if is_number && scene.is_outside() && scene.fits(&Token::End) {
        return Some(Hint::Text("a line has no number: what is done stands in `main() { .. }`"));
    }
    if is_number && scene.fits(&Token::Name(Name::new())) && !scene.kinds.expression {
        return Some(Hint::Text(if is_in_list(scene) {
            "a list of parameters has names alone; a call stands inside of a function"
        } else {
            "a name begins with a letter or `_`, not with a digit"
        }));
    }
    if !declares(scene) {
        return None;
    }
    if scene.is_mark(Punctuator::Minus) {
        return Some(Hint::Text("a name has letters, digits and `_` alone"));
    }
    let is_on_line = scene.before()?.line == scene.line(scene.index);
    if scene.name(scene.index).is_some() && is_on_line {
        return Some(Hint::Text("a `,` may be missing before it"));
    }
    None
}

/// Returns the hint on two names side by side in the place of a declaration: the first is a type of another language.
pub fn on_own_types(scene: &Scene<'_>) -> Option<Hint> {
    let before = scene.index.checked_sub(1)?;
    let ends = matches!(
        scene.token(scene.index.saturating_add(1)),
        Token::Punctuator(Punctuator::Equals | Punctuator::Semicolon)
    );
    let (first, _) = (scene.name(before)?, scene.name(scene.index)?);
    let is_on_line = scene.line(before) == scene.line(scene.index);
    if !ends || !is_on_line || scene.chosen_at() != before || !scene.is_lone(&first) {
        return None;
    }
    Some(Hint::Declaration(
        "there are no types of your own, and a declaration begins with `int`",
        scene.index,
    ))
}

/// Reports whether a declaration is just ended by a semicolon.
fn declares(scene: &Scene<'_>) -> bool {
    let chosen_at = scene.chosen_at();
    let is_typed = scene.token(chosen_at) == Token::Keyword(Keyword::Type);
    let before = scene.token(chosen_at.saturating_sub(1));
    let is_external = scene.is_outside() && before == Token::Keyword(Keyword::Type);
    scene.wants(Punctuator::Semicolon) && (is_typed || is_external)
}

/// Reports whether the next token is in a list of parameters.
pub fn is_in_list(scene: &Scene<'_>) -> bool {
    scene.wants(Punctuator::CloseRound) || scene.wants_item(Item::Naming(Role::Parameter))
}
