ghost use Rattle.std.specs.Prelude.{◌≡◌, ◌+◌, ◌<◌, ◌≤◌, ◌++◌, [], ◌∷◌, IsTrue, decimal, length, replicate};
ghost use Rattle.std.specs.List.{list_all};
ghost use Rattle.line_text.specs.Spaced.{is_plain};
ghost use Rattle.apl_arrays.specs.Glyph.{blank};
ghost use Rattle.fn_editor.specs.Number.{line_number_text, tenth_text};
ghost use Rattle.fn_editor.specs.Prompt.{bracketed_number, filling, prompt_text};

use crate::number::LineNumber;
use apl_arrays::Glyph;
use itoa::Buffer;
use std::marker::Model;

/// The most glyphs of a prompt.
const PROMPT_LIMIT: usize = 8;

/// What stands before a line of a definition: its number in brackets, and blanks. It is seen as its glyphs.
#[derive(Clone, Copy, Debug)]
pub struct Prompt {
    glyphs: [Glyph; PROMPT_LIMIT],
    len: u8,
}

impl Model for Prompt {
    ghost use Rattle.std.specs.Prelude.{ℕ, List, length, take};
    ghost use Rattle.apl_arrays.specs.Glyph.{blank};
    ghost use Rattle.apl_arrays.specs.Padded.{IsPadded, counted_length, padded, padded_again, same_parts};

    ghost Value = { List ℕ };

    ghost view = { λ p. take p.len p.glyphs };

    ghost invariant = { λ p. IsPadded 8 blank p.glyphs p.len };

    ghost inverse = { λ glyphs. record { glyphs = padded 8 blank glyphs; len = length glyphs } };

    ghost inverse_ok = { λ p h. same_parts (λ glyphs len. record { glyphs = glyphs; len = len }) (padded_again h) (counted_length h) };
}

impl Prompt {
    /// Its glyphs, at most eight.
    pub fn glyphs(&self) -> &[Glyph]
        ensures value { result.now ≡ self.now }
        ensures within { length self.now ≤ 8 }
    {
        &self.glyphs[..self.len as usize]
    }

    /// The prompt of a number: the number in brackets, filled with one blank at least until it has six glyphs.
    #[tactic(auto, using(crate::proofs::Prompts::number_is_short, crate::proofs::Prompts::tenth_is_short))]
    pub fn of(number: LineNumber) -> Prompt
        ensures { result ≡ prompt_text number }
    {
        let mut prompt = Prompt::new();
        prompt.push(Glyph::LEFT_BRACKET);
        prompt.push_count(number.whole_part());
        prompt.push_tenth(number.tenth());
        prompt.push(Glyph::RIGHT_BRACKET);
        prompt.fill();
        prompt
    }

    fn new() -> Prompt
        ensures { result ≡ [] }
    {
        Prompt {
            glyphs: [Glyph::BLANK; PROMPT_LIMIT],
            len: 0,
        }
    }

    fn push(&mut self, glyph: Glyph)
        requires { length self.old < 8 }
        ensures { self.new ≡ self.old ++ glyph ∷ [] }
    {
        self.glyphs[self.len as usize] = glyph;
        self.len += 1;
    }

    #[tactic(auto, using(line_text::proofs::Decimals::text_is_plain))]
    fn push_count(&mut self, count: u16)
        requires { length self.old + length (decimal count) ≤ 8 }
        ensures { self.new ≡ self.old ++ decimal count }
    {
        let mut buffer = Buffer::new();
        self.push_text(buffer.format(count));
    }

    fn push_text(&mut self, text: &str)
        requires plain { IsTrue (list_all is_plain text.now) }
        requires room { length self.old + length text.now ≤ 8 }
        ensures { self.new ≡ self.old ++ text.now }
    {
        for byte in text.as_bytes() {
            self.push(Glyph::with_code(*byte));
        }
    }

    fn push_tenth(&mut self, tenth: u8)
        requires room { length self.old + 2 ≤ 8 }
        requires digit { tenth < 10 }
        ensures { self.new ≡ self.old ++ tenth_text tenth }
    {
        if tenth != 0 {
            self.push(Glyph::PERIOD);
            self.push(Glyph::digit(tenth));
        }
    }

    // The blanks that fill a prompt: one at least, and so many that it has six glyphs.
    fn fill(&mut self)
        requires { length self.old < 8 }
        ensures { self.new ≡ self.old ++ replicate (filling (length self.old)) blank }
    {
        let count = self.glyphs().len();
        for _ in 0..6usize.saturating_sub(count).max(1) {
            self.push(Glyph::BLANK);
        }
    }
}
