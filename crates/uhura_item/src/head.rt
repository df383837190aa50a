//! The first words of lines that are no commands.
ghost use Rattle.std.specs.Prelude.{◌≡◌};
ghost use Rattle.uhura_item.specs.Reader.{head_in};

/// What the first word of a line says, where it is no verb.
#[derive(Clone, Copy)]
pub(crate) enum Head {
    Document,
    Answer,
    Nothing,
    Proposal,
    Pick,
    Loosen,
    Narrow,
    At,
    End,
    Shared,
    Leaf,
    Denied,
    Flow,
    Stuck,
    Units,
    Edge,
    Use,
}

impl Head {
    /// What a word says.
    pub(crate) fn read(word: &[u8]) -> Option<Head>
        ensures { result ≡ head_in word.now }
    {
        if word == b"document".as_slice() {
            return Some(Head::Document);
        }
        if word == b"answer".as_slice() {
            return Some(Head::Answer);
        }
        if word == b"none".as_slice() {
            return Some(Head::Nothing);
        }
        if word == b"proposal".as_slice() {
            return Some(Head::Proposal);
        }
        if word == b"pick".as_slice() {
            return Some(Head::Pick);
        }
        if word == b"loosen".as_slice() {
            return Some(Head::Loosen);
        }
        if word == b"narrow".as_slice() {
            return Some(Head::Narrow);
        }
        if word == b"at".as_slice() {
            return Some(Head::At);
        }
        if word == b"end".as_slice() {
            return Some(Head::End);
        }
        if word == b"shared".as_slice() {
            return Some(Head::Shared);
        }
        if word == b"leaf".as_slice() {
            return Some(Head::Leaf);
        }
        if word == b"denied".as_slice() {
            return Some(Head::Denied);
        }
        if word == b"flow".as_slice() {
            return Some(Head::Flow);
        }
        if word == b"stuck".as_slice() {
            return Some(Head::Stuck);
        }
        if word == b"units".as_slice() {
            return Some(Head::Units);
        }
        if word == b"edge".as_slice() {
            return Some(Head::Edge);
        }
        if word == b"use".as_slice() {
            return Some(Head::Use);
        }
        None
    }
}
