ghost use Rattle.std.specs.Prelude.{◌≡◌};
ghost use Rattle.apl_arrays.specs.Name.{same_name};
ghost use Rattle.ws_commands.specs.Reading.{command_word_of};
ghost use Rattle.ws_commands.specs.Row.{row_of_word};

use apl_arrays::Glyph;

/// The commands, by their words.
#[derive(Clone, Copy, Debug, PartialEq, Eq)]
pub(crate) enum CommandWord {
    /// All is cleared.
    Clear,
    /// The workspace is kept on the shelf.
    Save,
    /// A saved workspace comes in its place.
    Load,
    /// Names of a saved workspace come in.
    CopyFrom,
    /// A saved workspace is taken from the shelf.
    Remove,
    /// The saved workspaces are listed.
    Lib,
    /// The functions are listed.
    Fns,
    /// The variables are listed.
    Vars,
    /// Names are erased.
    Erase,
    /// The id is told, or set.
    Wsid,
    /// The session ends.
    Off,
}

/// Whether something stands behind a word.
#[derive(Clone, Copy, Debug, PartialEq, Eq)]
pub(crate) enum Need {
    /// It never does.
    No,
    /// It may.
    May,
    /// It has to.
    Must,
}

/// How a word is written, and whether the name of a workspace and names of objects stand behind it.
#[derive(Clone, Copy, Debug)]
pub(crate) struct CommandRow {
    pub text: &'static str,
    pub workspace: Need,
    pub objects: Need,
}

impl CommandWord {
    /// All of them.
    pub(crate) const ALL: [CommandWord; 11] = [
        CommandWord::Clear,
        CommandWord::Save,
        CommandWord::Load,
        CommandWord::CopyFrom,
        CommandWord::Remove,
        CommandWord::Lib,
        CommandWord::Fns,
        CommandWord::Vars,
        CommandWord::Erase,
        CommandWord::Wsid,
        CommandWord::Off,
    ];

    /// The row of a word.
    pub(crate) fn row(self) -> CommandRow
        ensures text { result.text.now ≡ (row_of_word self).text }
        ensures workspace { result.workspace ≡ (row_of_word self).workspace }
        ensures objects { result.objects ≡ (row_of_word self).objects }
    {
        match self {
            CommandWord::Clear => row_with(")CLEAR", Need::No, Need::No),
            CommandWord::Save => row_with(")SAVE", Need::May, Need::No),
            CommandWord::Load => row_with(")LOAD", Need::Must, Need::No),
            CommandWord::CopyFrom => row_with(")COPY", Need::Must, Need::May),
            CommandWord::Remove => row_with(")DROP", Need::Must, Need::No),
            CommandWord::Lib => row_with(")LIB", Need::No, Need::No),
            CommandWord::Fns => row_with(")FNS", Need::No, Need::No),
            CommandWord::Vars => row_with(")VARS", Need::No, Need::No),
            CommandWord::Erase => row_with(")ERASE", Need::No, Need::Must),
            CommandWord::Wsid => row_with(")WSID", Need::May, Need::No),
            CommandWord::Off => row_with(")OFF", Need::No, Need::No),
        }
    }

    /// Whether the word is written so.
    fn is_written(self, glyphs: &[Glyph]) -> bool
        ensures { result ≡ same_name (row_of_word self).text glyphs.now }
    {
        is_text(self.row().text.as_bytes(), glyphs)
    }
}

// A row of these parts.
fn row_with(text: &'static str, workspace: Need, objects: Need) -> CommandRow
    ensures text { result.text.now ≡ text.now }
    ensures workspace { result.workspace ≡ workspace }
    ensures objects { result.objects ≡ objects }
{
    CommandRow {
        text,
        workspace,
        objects,
    }
}

// Whether glyphs are a text of ASCII.
fn is_text(text: &[u8], glyphs: &[Glyph]) -> bool
    ensures { result ≡ same_name text.now glyphs.now }
{
    match text {
        [] => glyphs.is_empty(),
        [byte, text @ ..] => match glyphs {
            [glyph, glyphs @ ..] if *byte == glyph.code() => is_text(text, glyphs),
            _ => false,
        },
    }
}

/// The word that is written so, or `None` where none is.
pub(crate) fn word_of(text: &[Glyph]) -> Option<CommandWord>
    ensures { result ≡ command_word_of text.now }
{
    CommandWord::ALL
        .iter()
        .find(|word| word.is_written(text))
        .copied()
}
