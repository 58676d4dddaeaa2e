//! The first words of lines.

/// What a line is of.
#[derive(Clone, Copy)]
pub(crate) enum Verb {
    Aggregate,
    Volume,
    Start,
    Open,
    Feed,
    Close,
    Begin,
    Work,
    Finish,
    Fetch,
    Cull,
    PutDown,
    Survey,
    Parts,
}

/// The first words of lines.
const VERBS: [(&[u8], Verb); 14] = [
    (b"aggregate", Verb::Aggregate),
    (b"volume", Verb::Volume),
    (b"start", Verb::Start),
    (b"open", Verb::Open),
    (b"feed", Verb::Feed),
    (b"close", Verb::Close),
    (b"begin", Verb::Begin),
    (b"work", Verb::Work),
    (b"finish", Verb::Finish),
    (b"fetch", Verb::Fetch),
    (b"cull", Verb::Cull),
    (b"putdown", Verb::PutDown),
    (b"survey", Verb::Survey),
    (b"parts", Verb::Parts),
];

/// What a line that begins with this word is of.
pub(crate) fn verb_of(word: &[u8]) -> Option<Verb> {
    for (spelled, verb) in &VERBS {
        if *spelled == word {
            return Some(*verb);
        }
    }
    None
}
