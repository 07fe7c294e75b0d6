ghost use Rattle.std.specs.Prelude.{◌≡◌, ◌≤◌, IfErr, ℕ, List, length};
ghost use Rattle.text_reader.specs.Reading.{Gives, IsLeft};
ghost use Rattle.sv_journal.specs.WordReading.{read_word};

use text_reader::{Cursor, Unread};

/// What has a word of its own in the texts of entries.
pub(crate) trait EntryWord: Copy {
    ghost text: { Self → List ℕ };

    /// Its word.
    fn text(self) -> &'static [u8]
        ensures { result.now ≡ text self };
}

/// Reads the word of one of these, none of whose words begins another one's. It takes no memory.
pub(crate) fn read_word<W: EntryWord>(cursor: &mut Cursor<'_>, words: &[W]) -> Result<W, Unread>
    ensures value { Gives (λ word. (word, cursor.new)) result (read_word W.text 0 words.now cursor.old) }
    ensures free { IfErr result IsLeft }
{
    read_one_of(cursor, words, 0)
}

// Reads the word of one of these, where so many glyphs stand there that another word begins with.
fn read_one_of<W: EntryWord>(
    cursor: &mut Cursor<'_>,
    words: &[W],
    shared: usize,
) -> Result<W, Unread>
    requires { shared ≤ length cursor.old }
    ensures value { Gives (λ word. (word, cursor.new)) result (read_word W.text shared words.now cursor.old) }
    ensures free { IfErr result IsLeft }
{
    match words {
        [] => Err(Unread::Left(cursor.left() - shared)),
        [word, others @ ..] => {
            let text = word.text();
            let length = cursor.shared(text);
            if length == text.len() {
                cursor.text(text)?;
                Ok(*word)
            } else {
                read_one_of(cursor, others, shared.max(length))
            }
        }
    }
}
