//! Normal forms: one list of ACEs for each set of grants; tables of one right; and the comparison of two lists.
#![tactic(auto)]

mod ace_principal;
mod comparison;
mod emit;
mod five_forms;
pub mod internal;
pub mod laws;
mod mask_rights;
mod merged;
mod normal_form;
pub mod plain;
mod principal_class;
mod reduce;
mod right_table;
mod row_lines;
mod rows;
mod short_form;

pub use comparison::{Difference, RequesterNames, compare, compare_views};
pub use five_forms::{FiveForms, normalize_inherit};
pub use merged::MergedRows;
pub use normal_form::{is_normal, normal_bytes, normal_bytes_with, normalize, normalize_view};
pub use right_table::{BorrowedRow, Row, borrowed_rows, table};
pub use row_lines::table_text;
