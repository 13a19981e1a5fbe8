//! The words with which lines begin.

ghost use Rattle.std.specs.Prelude.{◌≡◌};
ghost use Rattle.std.specs.Str.{bytes_eq};
ghost use Rattle.event_text.specs.Reading as model;

/// The kinds of events.
#[derive(Clone, Copy)]
pub enum Kind {
    Start,
    Take,
    Deploy,
    Refill,
    Built,
    Keep,
    Dup,
    Drop,
    Evict,
    Park,
    End,
    Back,
    Refuse,
    Want,
    Answer,
}

/// Whether the bytes are the text.
pub fn is(bytes: &[u8], text: &str) -> bool
    ensures { result ≡ bytes_eq bytes.now text.now }
{
    bytes == text.as_bytes()
}

/// The kinds of events of requests.
#[tactic(auto, unfolding(crate::specs::Reading::request_kind))]
fn request_kind(word: &[u8]) -> Option<Kind>
    ensures { result ≡ model.request_kind word.now }
{
    if is(word, "start") {
        return Some(Kind::Start);
    }
    if is(word, "answer") {
        return Some(Kind::Answer);
    }
    if is(word, "refuse") {
        return Some(Kind::Refuse);
    }
    if is(word, "want") {
        return Some(Kind::Want);
    }
    None
}

/// The kinds of events of contexts.
#[tactic(auto, unfolding(crate::specs::Reading::context_kind))]
fn context_kind(word: &[u8]) -> Option<Kind>
    ensures { result ≡ model.context_kind word.now }
{
    if is(word, "take") {
        return Some(Kind::Take);
    }
    if is(word, "deploy") {
        return Some(Kind::Deploy);
    }
    if is(word, "refill") {
        return Some(Kind::Refill);
    }
    if is(word, "park") {
        return Some(Kind::Park);
    }
    if is(word, "end") {
        return Some(Kind::End);
    }
    if is(word, "evict") {
        return Some(Kind::Evict);
    }
    None
}

/// The kinds of events of layers and frames.
#[tactic(auto, unfolding(crate::specs::Reading::layer_kind))]
fn layer_kind(word: &[u8]) -> Option<Kind>
    ensures { result ≡ model.layer_kind word.now }
{
    if is(word, "built") {
        return Some(Kind::Built);
    }
    if is(word, "keep") {
        return Some(Kind::Keep);
    }
    if is(word, "dup") {
        return Some(Kind::Dup);
    }
    if is(word, "drop") {
        return Some(Kind::Drop);
    }
    if is(word, "back") {
        return Some(Kind::Back);
    }
    None
}

/// The kind of event that a word names, if any.
#[tactic(auto, unfolding(crate::specs::Reading::kind_of))]
pub fn kind_of(word: &[u8]) -> Option<Kind>
    ensures { result ≡ model.kind_of word.now }
{
    if let Some(kind) = request_kind(word) {
        return Some(kind);
    }
    if let Some(kind) = context_kind(word) {
        return Some(kind);
    }
    layer_kind(word)
}
