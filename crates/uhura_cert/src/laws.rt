//! The law of documents as text: what was written reads back.
ghost use Rattle.uhura_cert.specs.ReadsBack.{TextsReadBack};

/// Of the text of a document this document is read, but for the slots of requirements, where there is memory.
pub fn texts_read_back()
    ensures { TextsReadBack }
{}
