//! Tables: the rules on their columns, paths and plans, and what is made of them.

mod matching;
mod names;
mod paths;
mod plan;
mod whole;

pub use matching::has_plan_mismatch;
pub use names::{
    column_index, has_column_twice, has_path_name_twice, has_too_many, lacks_path_name, note,
};
pub use whole::bind_table;
