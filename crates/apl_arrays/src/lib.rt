//! The values of APL: glyphs, names, lists, arrays, and the names of its reports.
#![tactic(auto)]

mod array;
mod file;
mod file_list;
mod glyph;
mod items;
mod laws;
mod line_list;
mod list;
mod memory;
mod name;
mod numbers;
mod party;
mod renewing;
mod report;
mod shaped;
mod system;
mod text;
mod threads;
mod way;
mod word;

pub use array::{
    Array, ArrayRefused, ELEMENT_LIMIT, RANK_LIMIT, ShapeFault, count_of_elements,
    faulty_shapes_pass_the_limits, shape_fault,
};
pub use file::{FILE_NAME_LIMIT, FileName};
pub use file_list::{File, FileList};
pub use glyph::Glyph;
pub use items::{Item, Items, ItemsRef};
pub use laws::{named_glyphs_of_apl, named_glyphs_of_ascii, numbers_are_as_defined};
pub use line_list::{LINE_GLYPH_LIMIT, LineList};
pub use list::{Bytes, Line, List, NameList, PartyList, Readings};
pub use memory::WantOfMemory;
pub use name::{NAME_LIMIT, Name, longest_names_end};
pub use numbers::NumberList;
pub use party::{FIRST_USER, LAST_USER, OFFER_LIMIT, USER_LIMIT};
pub use renewing::renew_value;
pub use report::{Fail, Report};
pub use system::SystemName;
pub use text::{GlyphRefused, add_utf8, glyph_at, glyphs_of, texts_are_read_in_one_way, utf8_of};
pub use threads::{lists_may_cross_threads, values_may_cross_threads};
pub use way::Way;
pub use word::{blank_count, digit_count, next_word, words_stand_between_blanks};
