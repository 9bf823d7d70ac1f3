// The words of text commands: one constant table of word, letter and ID, and its look-up. No other
// word is known, and no other list of them is read.
#![tactic(auto)]

ghost use Rattle.std.specs.Prelude.{◌≡◌, map, ◌<◌};
ghost use Rattle.std.specs.Option.{option_map};
ghost use Rattle.octets.specs.Options.{in_code};
ghost use Rattle.octets.specs.Order.{same};
ghost use Rattle.protocol.specs.Ids;
ghost use Rattle.words.specs.Words.{lower, names, id_of, words, In};
ghost use Rattle.words.specs.Table.{entry_of};

use protocol::CommandId;

// A word and the letter that stands for it, where there is one, in small letters, and the ID of
// both.
struct Row {
    word: &'static [u8],
    letter: Option<u8>,
    id: CommandId,
}

// All that a text line may begin with, row i with ID i. HELLO has no letter.
const ROWS: [Row; 8] = [
    Row {
        word: b"hello",
        letter: None,
        id: CommandId::Hello,
    },
    Row {
        word: b"sub",
        letter: Some(b's'),
        id: CommandId::Sub,
    },
    Row {
        word: b"unsub",
        letter: Some(b'u'),
        id: CommandId::Unsub,
    },
    Row {
        word: b"read",
        letter: Some(b'r'),
        id: CommandId::Read,
    },
    Row {
        word: b"write",
        letter: Some(b'w'),
        id: CommandId::Write,
    },
    Row {
        word: b"begin",
        letter: Some(b'b'),
        id: CommandId::Begin,
    },
    Row {
        word: b"commit",
        letter: Some(b'c'),
        id: CommandId::Commit,
    },
    Row {
        word: b"ping",
        letter: Some(b'p'),
        id: CommandId::Ping,
    },
];

// The table, row by row that of words.
fn rows() -> &'static [Row]
    ensures { map entry_of result.now ≡ words }
{
    &ROWS
}

// Whether w is the word, which has no capitals, in any case.
fn is_word(w: &[u8], word: &[u8]) -> bool
    requires { map lower word.now ≡ word.now }
    ensures { result ≡ same (map lower w.now) word.now }
{
    w.eq_ignore_ascii_case(word)
}

impl Row {
    // Whether w is the word or the letter of the row, in any case.
    fn is_named(&self, w: &[u8]) -> bool
        requires { In (entry_of self.now) words }
        ensures { result ≡ names (map lower w.now) (entry_of self.now) }
    {
        is_word(w, self.word) || matches!(self.letter, Some(letter) if is_word(w, &[letter]))
    }
}

// The ID that w names, as the word or the letter of a row in any case.
pub fn id_of(w: &[u8]) -> Option<CommandId>
    ensures { option_map Ids.id_of result ≡ in_code (id_of w.now) }
{
    for row in rows() {
        if row.is_named(w) {
            return Some(row.id);
        }
    }
    None
}
