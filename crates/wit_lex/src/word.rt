//! Words of the grammar.
ghost use Rattle.std.specs.Prelude.{◌≡◌, ◌<◌, IfNone, IfSome, length, slice_index};
ghost use Rattle.wit_lex.specs.Words.{IsPlain, word_text};

/// A word that is no name where no `%` comes before it.
#[derive(Clone, Copy, Debug, PartialEq, Eq)]
pub enum Word {
    Use,
    Type,
    Func,
    Async,
    Resource,
    Own,
    Borrow,
    Record,
    Flags,
    Variant,
    Enum,
    Bool,
    U8,
    U16,
    U32,
    U64,
    S8,
    S16,
    S32,
    S64,
    F32,
    F64,
    Char,
    String,
    Option,
    Result,
    Future,
    Stream,
    List,
    Map,
    Tuple,
    ErrorContext,
    As,
    Static,
    Interface,
    Import,
    Export,
    World,
    Package,
    Constructor,
    Include,
    With,
}

/// The word that is spelled like this, where the text is.
fn spelled(text: &str, like: &str, word: Word) -> Option<Word>
    requires { like.now ≡ word_text word }
    ensures word { IfSome result (λ found. found ≡ word) }
    ensures same { IfSome result (λ found. text.now ≡ like.now) }
    ensures none { IfNone result (text.now ≡ like.now → ⊥) }
{
    if text == like { Some(word) } else { None }
}

/// The word of two letters that a text is, given by its first one first.
fn word_of_two(text: &str, first: u8) -> Option<Word>
    requires long { length text.now ≡ 2 }
    requires first { slice_index text.now 0 ≡ first }
    ensures word { IfSome result (λ word. text.now ≡ word_text word) }
    ensures none { IfNone result (IsPlain text.now) }
{
    match first {
        b'u' => spelled(text, "u8", Word::U8),
        b's' => spelled(text, "s8", Word::S8),
        b'a' => spelled(text, "as", Word::As),
        _ => None,
    }
}

/// The word of three letters that a text is.
fn word_of_three(text: &str, first: u8) -> Option<Word>
    requires long { length text.now ≡ 3 }
    requires first { slice_index text.now 0 ≡ first }
    ensures word { IfSome result (λ word. text.now ≡ word_text word) }
    ensures none { IfNone result (IsPlain text.now) }
{
    match first {
        b'u' => match text {
            "use" => Some(Word::Use),
            "u16" => Some(Word::U16),
            "u32" => Some(Word::U32),
            "u64" => Some(Word::U64),
            _ => None,
        },
        b's' => match text {
            "s16" => Some(Word::S16),
            "s32" => Some(Word::S32),
            "s64" => Some(Word::S64),
            _ => None,
        },
        b'f' => match text {
            "f32" => Some(Word::F32),
            "f64" => Some(Word::F64),
            _ => None,
        },
        b'o' => spelled(text, "own", Word::Own),
        b'm' => spelled(text, "map", Word::Map),
        _ => None,
    }
}

/// The word of four letters that a text is.
fn word_of_four(text: &str, first: u8) -> Option<Word>
    requires long { length text.now ≡ 4 }
    requires first { slice_index text.now 0 ≡ first }
    ensures word { IfSome result (λ word. text.now ≡ word_text word) }
    ensures none { IfNone result (IsPlain text.now) }
{
    match first {
        b'l' => spelled(text, "list", Word::List),
        b't' => spelled(text, "type", Word::Type),
        b'b' => spelled(text, "bool", Word::Bool),
        b'c' => spelled(text, "char", Word::Char),
        b'f' => spelled(text, "func", Word::Func),
        b'e' => spelled(text, "enum", Word::Enum),
        b'w' => spelled(text, "with", Word::With),
        _ => None,
    }
}

/// The word of five letters that a text is.
fn word_of_five(text: &str, first: u8) -> Option<Word>
    requires long { length text.now ≡ 5 }
    requires first { slice_index text.now 0 ≡ first }
    ensures word { IfSome result (λ word. text.now ≡ word_text word) }
    ensures none { IfNone result (IsPlain text.now) }
{
    match first {
        b'f' => spelled(text, "flags", Word::Flags),
        b't' => spelled(text, "tuple", Word::Tuple),
        b'a' => spelled(text, "async", Word::Async),
        b'w' => spelled(text, "world", Word::World),
        _ => None,
    }
}

/// The word of six letters that a text is.
fn word_of_six(text: &str, first: u8) -> Option<Word>
    requires long { length text.now ≡ 6 }
    requires first { slice_index text.now 0 ≡ first }
    ensures word { IfSome result (λ word. text.now ≡ word_text word) }
    ensures none { IfNone result (IsPlain text.now) }
{
    match first {
        b's' => match text {
            "string" => Some(Word::String),
            "stream" => Some(Word::Stream),
            "static" => Some(Word::Static),
            _ => None,
        },
        b'r' => match text {
            "record" => Some(Word::Record),
            "result" => Some(Word::Result),
            _ => None,
        },
        b'o' => spelled(text, "option", Word::Option),
        b'b' => spelled(text, "borrow", Word::Borrow),
        b'f' => spelled(text, "future", Word::Future),
        b'i' => spelled(text, "import", Word::Import),
        b'e' => spelled(text, "export", Word::Export),
        _ => None,
    }
}

/// The word of seven letters that a text is.
fn word_of_seven(text: &str, first: u8) -> Option<Word>
    requires long { length text.now ≡ 7 }
    requires first { slice_index text.now 0 ≡ first }
    ensures word { IfSome result (λ word. text.now ≡ word_text word) }
    ensures none { IfNone result (IsPlain text.now) }
{
    match first {
        b'p' => spelled(text, "package", Word::Package),
        b'v' => spelled(text, "variant", Word::Variant),
        b'i' => spelled(text, "include", Word::Include),
        _ => None,
    }
}

/// The word of more than seven letters that a text is.
fn word_of_more(text: &str, first: u8) -> Option<Word>
    requires long { 7 < length text.now }
    requires first { slice_index text.now 0 ≡ first }
    ensures word { IfSome result (λ word. text.now ≡ word_text word) }
    ensures none { IfNone result (IsPlain text.now) }
{
    match first {
        b'r' => spelled(text, "resource", Word::Resource),
        b'i' => spelled(text, "interface", Word::Interface),
        b'c' => spelled(text, "constructor", Word::Constructor),
        b'e' => spelled(text, "error-context", Word::ErrorContext),
        _ => None,
    }
}

/// The word that a text is, given by its length and its first letter first.
pub fn word_of(text: &str) -> Option<Word>
    ensures word { IfSome result (λ word. text.now ≡ word_text word) }
    ensures none { IfNone result (IsPlain text.now) }
{
    let bytes = text.as_bytes();
    let len = bytes.len();
    if len < 2 {
        return None;
    }
    let first = bytes[0];
    match len {
        2 => word_of_two(text, first),
        3 => word_of_three(text, first),
        4 => word_of_four(text, first),
        5 => word_of_five(text, first),
        6 => word_of_six(text, first),
        7 => word_of_seven(text, first),
        _ => word_of_more(text, first),
    }
}
