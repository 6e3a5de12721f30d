//! The line that the program prints for a refusal: the number and the name of its cause and, depending on the cause, the
//! file, the place, the offset and further values. `refusal_line` in `specs/RefusalText.antt` defines every byte.
#![tactic(auto)]

mod cause_table;
mod detail_text;
mod line;
mod pieces;
mod place_text;
mod words;

pub use cause_table::{LineForm, cause_name, line_form, status_number};
pub use line::refusal_line;
pub use place_text::push_place;
