//! Texts of lines: decimal numbers, words with blanks between, headings, and lines in UTF-8 with their line feeds.
#![tactic(auto)]

mod lines;
mod number;
mod size;
mod text;
pub mod worked;

pub use lines::{
    a_text_tells_its_lines, add_content, add_contents, add_heading, add_line, add_user_lines,
    add_word, first_line,
};
pub use number::{a_text_tells_its_number, add_count, add_number, digit_count, number_width};
pub use size::{heading_size, line_size};
pub use text::{add_blank, add_blanks, add_counts, add_glyphs, add_numbers, add_text};
