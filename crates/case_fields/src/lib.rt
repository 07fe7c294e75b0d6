//! What the fields of tables of cases say: numbers, glyphs, names, arrays, axes and reports, read and written.
#![tactic(auto)]

mod arrays;
mod glyphs;
mod numbers;
mod values;

pub use arrays::{
    array_of, array_text, axes_of, axis_of, optional_of, outcome_text, report_text, way_of, zeros,
};
pub use glyphs::{
    glyphs_text, line_of, name_of, names_of, names_text, push_glyphs, push_lines, push_names,
    push_quoted, quoted, stated, unescaped,
};
pub use numbers::{number_of, numbers_of, push_numbers};
pub use values::{value_of, value_text};
