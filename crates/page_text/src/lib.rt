// The description of a page as text: how it is read, and how the tracks of its axes are aligned.
#![tactic(auto)]

pub mod axis_alignment;
mod container_text;
mod draft;
pub mod laws;
pub mod page_description;
pub mod read_error;
pub mod reader;
mod source_text;
mod track_text;
