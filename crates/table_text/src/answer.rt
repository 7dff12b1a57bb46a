// What is told of a grammar file.

ghost use Rattle.std.specs.Prelude.{◌≡◌};

use std::marker::Model;

/// A printed text.
#[derive(Drop)]
pub struct Text {
    bytes: Vec<u8>,
}

impl Model for Text {
    ghost use Rattle.std.specs.Prelude.{List, ℕ};

    ghost Value = { List ℕ };

    ghost view = { λ t. t.bytes.items };
}

impl Text {
    pub(crate) fn new(bytes: Vec<u8>) -> Text
        ensures { result ≡ bytes.items }
    {
        Text { bytes }
    }

    /// The text's bytes.
    pub fn into_bytes(self) -> Vec<u8>
        ensures { result.items ≡ self }
    {
        self.bytes
    }
}

/// The answer to a grammar file, and to a word.
#[derive(Drop)]
pub enum TableAnswer {
    /// The lines of the sizes of the grammar and of its tables, of the entries, and of the word's left parse.
    Tabled(Text),
    /// The file spells no grammar: the line of its first fault, without a line feed.
    NoGrammar(Text),
    /// The grammar has no tables: the line of its least conflict, without a line feed.
    Conflict(Text),
    /// No sentence begins with the first `at + 1` tokens of the word, where the end mark stands right behind the last one.
    Syntax { at: u64 },
}
