//! Rows on their way to an output: a page gathers their texts, and is written when it is long.
//!
//! It stands on `sj_outside` for the sinks and on `sj_rows` for the texts of rows. [`Page`] holds the texts that are not
//! written yet, to which whoever finds a row appends it, and counts rows and error rows; no more than a page and one row is ever held,
//! however many rows there are. What was written and what the page holds is told by the contract of each call, also
//! where a write fails or memory runs out. [`write_all`] and [`write_parts`] write texts that need no page.
#![tactic(auto)]

mod page;
mod stop;
mod writes;

pub use page::{Counts, Page};
pub use stop::Stop;
pub use writes::{write_all, write_parts};
