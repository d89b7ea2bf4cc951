//! What stands at the front of a text.

ghost use Rattle.std.specs.Prelude.{◌≡◌, ◌∷◌, ◌<◌, ◌≤◌, [], false, length, IfNone, IfSome};
ghost use Rattle.std.specs.Str.{IsUtf8};
ghost use Rattle.ass_num.specs.Bytes.{backslash, open_brace};
ghost use Rattle.override_tags.specs.Fronts.{part_of, begins_escape, has_close, shown_char, IsFront};

/// What stands at the front of a text.
#[derive(Clone, Copy, Debug)]
pub enum FrontKind<'a> {
    Char(char),
    HardBreak,
    SoftBreak,
    HardSpace,
    /// What stands between the braces.
    Block(&'a str),
}

/// What stands at the front of a text, the text behind it, and whether a `}` may stand there.
#[derive(Clone, Copy, Debug)]
pub struct Front<'a> {
    pub kind: FrontKind<'a>,
    pub rest: &'a str,
    pub may_close: bool,
}

/// What the text behind a `\` makes of it, if that is a break or a hard space.
fn escape(text: &str) -> Option<(FrontKind<'_>, &str)>
    ensures none { IfNone result (begins_escape text.now ≡ false) }
    ensures some { IfSome result (λ found. IsFront (backslash ∷ text.now) (part_of found.0) found.1.now) }
    ensures shorter { IfSome result (λ found. length found.1.now < length text.now) }
    ensures closes { IfSome result (λ found. has_close text.now ≡ false → has_close found.1.now ≡ false) }
{
    let mut chars = text.chars();
    match chars.next()? {
        'N' => Some((FrontKind::HardBreak, chars.as_str())),
        'n' => Some((FrontKind::SoftBreak, chars.as_str())),
        'h' => Some((FrontKind::HardSpace, chars.as_str())),
        _ => None,
    }
}

/// What the text behind a `{` makes of it: a block if a `}` stands there, or else a character.
fn brace(text: &str, may_close: bool) -> Front<'_>
    requires { may_close ≡ false → has_close text.now ≡ false }
    ensures front { IsFront (open_brace ∷ text.now) (part_of result.kind) result.rest.now }
    ensures shorter { length result.rest.now ≤ length text.now }
    ensures closes { result.may_close ≡ false → has_close result.rest.now ≡ false }
{
    if !may_close {
        return Front {
            kind: FrontKind::Char('{'),
            rest: text,
            may_close,
        };
    }
    match text.split_once('}') {
        Some((body, rest)) => Front {
            kind: FrontKind::Block(body),
            rest,
            may_close,
        },
        None => Front {
            kind: FrontKind::Char('{'),
            rest: text,
            may_close: false,
        },
    }
}

/// What the text behind a `\` makes of it: a break, a hard space, or else a character.
fn backslash(text: &str, may_close: bool) -> Front<'_>
    requires { may_close ≡ false → has_close text.now ≡ false }
    ensures front { IsFront (backslash ∷ text.now) (part_of result.kind) result.rest.now }
    ensures shorter { length result.rest.now ≤ length text.now }
    ensures closes { result.may_close ≡ false → has_close result.rest.now ≡ false }
{
    match escape(text) {
        Some((kind, rest)) => Front {
            kind,
            rest,
            may_close,
        },
        None => Front {
            kind: FrontKind::Char('\\'),
            rest: text,
            may_close,
        },
    }
}

/// A tab is a space.
fn shown_char(c: char) -> char
    ensures { result ≡ shown_char c }
{
    if c == '\t' { ' ' } else { c }
}

/// What stands at the front of a text, unless it is empty. A text without a `}` may be said to
/// have none, and is then not searched for one.
pub fn front_of(text: &str, may_close: bool) -> Option<Front<'_>>
    requires { may_close ≡ false → has_close text.now ≡ false }
    ensures none { IfNone result (text.now ≡ []) }
    ensures front { IfSome result (λ front. IsFront text.now (part_of front.kind) front.rest.now) }
    ensures shorter { IfSome result (λ front. length front.rest.now < length text.now) }
    ensures closes { IfSome result (λ front. front.may_close ≡ false → has_close front.rest.now ≡ false) }
    ensures text { IfSome result (λ front. IsUtf8 front.rest.now) }
{
    let mut chars = text.chars();
    let c = chars.next()?;
    let rest = chars.as_str();
    match c {
        '{' => Some(brace(rest, may_close)),
        '\\' => Some(backslash(rest, may_close)),
        c => Some(Front {
            kind: FrontKind::Char(shown_char(c)),
            rest,
            may_close,
        }),
    }
}
