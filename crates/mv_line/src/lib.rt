//! Texts in lines and fields: how bytes are cut into lines, a line into fields, and which number digits show. `read_lines` reads
//! a text by lines, to its first fault.
#![tactic(auto)]

mod byte;
mod fault;
mod field;
mod line;
mod number;
mod part;
mod reading;

pub use byte::{digit, end_at, first_place, has_foreign_byte};
pub use fault::{FaultKind, LineRefusal, TextFault, TextRefusal};
pub use field::{is_word, one_field, split_field, two_fields};
pub use line::{
    LONGEST_LINE, Lines, begins_with_space, is_foreign, is_too_long, shown, split_cut_off,
    without_cr, without_first_spaces, without_last_spaces,
};
pub use number::{is_digits, number_within, push_number, wide_number_within};
pub use part::split_part;
pub use reading::{LineReader, read_lines};
