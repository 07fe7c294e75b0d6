use anyhow::Result;
use std::alloc::Global;

// So many equal notes in a row are written out; more are written once, with their number.
const MOST_WRITTEN_OUT: u64 = 3;

/// Notes with ` / ` between them. More than three equal ones in a row are written once, with their number and `×` before.
#[derive(Debug, Drop)]
pub struct Notes {
    text: String,
    is_begun: bool,
    last: String,
    count: u64,
}

impl Notes {
    pub fn new(alloc: Global) -> Notes {
        Notes {
            text: String::new(alloc),
            is_begun: false,
            last: String::new(alloc),
            count: 0,
        }
    }

    /// Adds a note.
    pub fn push(&mut self, note: String) -> Result<()> {
        if self.count > 0 && self.last == note {
            self.count = self.count.saturating_add(1);
            return Ok(());
        }
        self.write_last()?;
        self.last = note;
        self.count = 1;
        Ok(())
    }

    /// The text of all notes, `-` where there are none.
    pub fn into_text(mut self) -> Result<String> {
        if self.count == 0 {
            self.text.push('-')?;
        }
        self.write_last()?;
        Ok(self.text)
    }

    // Writes the last note, which was not written yet.
    fn write_last(&mut self) -> Result<()> {
        if self.count > MOST_WRITTEN_OUT {
            let count = self.count;
            self.write_separator()?;
            write!(self.text, "{count}×")?;
            self.text.push_str(self.last.as_str())?;
            return Ok(());
        }
        for _ in 0..self.count {
            self.write_separator()?;
            self.text.push_str(self.last.as_str())?;
        }
        Ok(())
    }

    // Writes what stands between two notes.
    fn write_separator(&mut self) -> Result<()> {
        if self.is_begun {
            self.text.push_str(" / ")?;
        }
        self.is_begun = true;
        Ok(())
    }
}
