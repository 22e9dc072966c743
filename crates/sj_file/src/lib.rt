//! The words of the command and the file of statements: what the words ask for, the file read whole, its statements as
//! they are bound, or the status with which the command ends.
//!
//! It stands on `sj_outside` for the shelf that has the file, on `sj_sql` for its statements one after the other, on
//! `sj_bind` for what each is bound to, on `sj_sql_text` for its canonical text, and on `sj_group` for what can be made of
//! groups. [`form_of`] says what the words ask for. [`accept`] gives the statements of the file that they name,
//! [`accept_count`] their number, [`accept_text`] their canonical text, and [`accept_to_group`] the one statement whose rows
//! are gathered; or each gives the [`Status`] with which the command ends instead. Contracts say of every status that these
//! calls give why it came, and that a file is accepted only if it is not too long and none of its statements is refused. A
//! file has one verdict, so commands with the same file accept it or refuse it alike, but that grouping asks for one
//! statement of a form. No input is read here, and nothing is written.
#![tactic(auto)]

mod file;
mod job;
mod law;
mod piece;
mod statements;
mod status;
mod to_group;
mod verdict;

pub use file::{Form, form_of};
pub use job::{Job, Keys};
pub use law::canonical_file;
pub use piece::{MAX_PIECE, front, piece_len};
pub use statements::{accept, accept_count, accept_text};
pub use status::Status;
pub use to_group::{ToGroup, accept_to_group};
