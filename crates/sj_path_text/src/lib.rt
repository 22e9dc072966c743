//! The canonical text of a path of the SQL/JSON path language (ISO/IEC 9075-2, 9.46): one text for each tree.
//!
//! [`path_text`] prints a path: its mode, and then its expression, with parentheses where an operand would else be read as
//! part of another operation. `specs/Text.antt` says what that text is. The laws say that it is read back to this very path.
#![tactic(auto)]

mod law;
mod parentheses;
mod part;
mod print;

pub use law::{read_back, same_text_same_tree};
pub use print::path_text;
