//! Hints on what parts and ends: commas, brackets, semicolons and braces.

use crate::heads::{behind_brackets, line_from};
use crate::hints::{Hint, by_layout};
use crate::misfits::begins_value;
use crate::operators::compares;
use crate::returned::on_last_values;
use crate::rewriting::Rewrite;
use crate::scenes::Scene;
use derivations::Item;
use tokens::{Keyword, Punctuator, Token};

/// Returns the hint on a `,` between statements, and between variables that are set at once.
pub fn on_commas(scene: &Scene<'_>) -> Option<Hint> {
    if !scene.is_mark(Punctuator::Comma) || !scene.wants(Punctuator::Semicolon) {
        return None;
    }
    let first = scene.chosen_at();
    Some(if first == scene.index.saturating_sub(1) {
        Hint::Assignments(first)
    } else if scene.token(first) == Token::Keyword(Keyword::Return) {
        Hint::Text("a function gives back one value")
    } else {
        Hint::Text("a `,` joins no statements: write `;`")
    })
}

/// Reports whether the token that doesn't fit stands in the brackets of an `if` or a `while`, and these are closed behind it in its line, which
/// goes on then.
fn is_in_test(scene: &Scene<'_>) -> bool {
    let word = Token::Keyword(Keyword::If);
    let is_test = match scene.pending_at(Item::Exactly(Punctuator::CloseRound)) {
        Some(at) => scene.token(at) == word || scene.token(at) == Token::Keyword(Keyword::While),
        None => false,
    };
    let mut may_follow = false;
    for located in line_from(scene.tokens, scene.index.saturating_add(1)) {
        match located.token {
            Token::Punctuator(Punctuator::CloseRound) => return is_test && may_follow,
            Token::Punctuator(Punctuator::Semicolon | Punctuator::OpenCurly | Punctuator::Equals) =>
                return false,
            _ => may_follow = may_follow || compares(&located.token),
        }
    }
    false
}

/// Reports whether the brackets of the `if` or `while` of an index are closed in its line: what is behind the token that doesn't fit is no
/// condition.
fn holds_statements(scene: &Scene<'_>, word: usize) -> bool {
    let is_test = matches!(
        scene.token(word),
        Token::Keyword(Keyword::If | Keyword::While)
    );
    let Some(behind) = behind_brackets(scene.tokens, word) else {
        return false;
    };
    is_test && scene.line(behind.saturating_sub(1)) == scene.line(word)
}

/// Returns the hint on a `,` or a `;` between conditions.
pub fn on_joined_conditions(scene: &Scene<'_>) -> Option<Hint> {
    let parts = scene.is_mark(Punctuator::Comma) || scene.is_mark(Punctuator::Semicolon);
    let word = scene.pending_at(Item::Exactly(Punctuator::CloseRound))?;
    if parts && !is_in_test(scene) && holds_statements(scene, word) {
        return Some(Hint::Written(
            "an `if` or a `while` has one condition in its brackets, and behind them a statement",
            if scene.is_mark(Punctuator::Semicolon)
                && scene.token(word) == Token::Keyword(Keyword::While)
            {
                Rewrite::For(word)
            } else {
                Rewrite::Listed(word)
            },
            "if (..) ..; else ..;",
        ));
    }
    (parts && is_in_test(scene)).then_some(Hint::Written(
        "conditions are joined by `&&`, if both are to hold, or by `||`",
        Rewrite::Joined(scene.index, scene.index.saturating_add(1), "&&"),
        "a > 1 && a < 9",
    ))
}

/// Returns the hint on brackets that aren't closed or not opened, and on arguments without a `,` between them.
pub fn on_brackets(scene: &Scene<'_>) -> Option<Hint> {
    let may_close = scene.fits_mark(Punctuator::CloseRound);
    let follows_number = matches!(scene.before()?.token, Token::Constant(_));
    let follows_product = scene.touches_mark(Punctuator::CloseRound) && scene.kinds.operator;
    if (follows_number || follows_product) && scene.is_mark(Punctuator::OpenRound) {
        return Some(Hint::Written(
            "a product is written with `*`",
            Rewrite::Joined(scene.index, scene.index, "*"),
            "2 * (a + b)",
        ));
    }
    if may_close && follows_number && matches!(scene.met(), Token::Name(_)) {
        return Some(Hint::Text("a number has no unit behind it; or a `,` or a `)` may be missing"));
    }
    if may_close && scene.is_word(Keyword::If) && scene.before()?.line == scene.line(scene.index) {
        return Some(Hint::Text(
            "an `if` is a statement and has no value: set a variable before, as in `if (..) a = 1; else a = 2;`",
        ));
    }
    if may_close && parts_arguments(scene) {
        return Some(Hint::Text("a `,` parts the arguments of a call, not a `;`"));
    }
    if may_close && scene.fits_mark(Punctuator::Comma) && begins_value(&scene.met()) {
        return Some(Hint::Text("a `,` or a `)` may be missing before it"));
    }
    if may_close && !scene.kinds.expression {
        return Some(Hint::Text("a `)` may be missing before it"));
    }
    if scene.is_mark(Punctuator::CloseRound) && (scene.kinds.operator || scene.kinds.statement) {
        return Some(Hint::Text("this `)` has no `(`: perhaps it is one too many"));
    }
    None
}

/// Reports whether a `;` is at a point at which a `,` may be, with a whole argument after it.
fn parts_arguments(scene: &Scene<'_>) -> bool {
    let behind = scene.token(scene.index.saturating_add(2));
    let ends = matches!(
        behind,
        Token::Punctuator(Punctuator::Comma | Punctuator::CloseRound)
    );
    let is_value = begins_value(&scene.token(scene.index.saturating_add(1)));
    scene.is_mark(Punctuator::Semicolon) && scene.fits_mark(Punctuator::Comma) && is_value && ends
}

/// Returns the hint on statements and blocks that aren't ended.
pub fn on_ends(scene: &Scene<'_>) -> Option<Hint> {
    let before = scene.before()?;
    if let Some(hint) = on_last_values(scene) {
        return Some(hint);
    }
    if scene.fits_mark(Punctuator::Semicolon) && !scene.kinds.statement {
        if before.line < scene.line(scene.index) {
            return Some(Hint::LacksSemicolon(before.line));
        }
        if scene.is_word(Keyword::If) {
            let begin = scene.pending_at(Item::Exactly(Punctuator::Semicolon))?;
            return Some(Hint::Written(
                "an `if` stands before what it decides",
                Rewrite::Chosen(begin, scene.index),
                "if (..) a = ..; else a = ..;",
            ));
        }
        return Some(Hint::Text("a `;` may be missing before it"));
    }
    if scene.met() == Token::End {
        if scene
            .pending_at(Item::Exactly(Punctuator::CloseRound))
            .is_some()
        {
            return Some(Hint::Text(
                "a bracket isn't closed: a `)` and what follows it are missing",
            ));
        }
        let open = scene.pending_at(Item::Exactly(Punctuator::CloseCurly))?;
        let unclosed = Hint::Unclosed("", scene.line(open));
        return Some(by_layout(scene.so_far(), true, "", unclosed));
    }
    if scene.fits_mark(Punctuator::OpenCurly) && !scene.kinds.statement {
        return Some(Hint::Text("a `{` may be missing before it"));
    }
    None
}
