// The report on the axes of an aligned page.
#![tactic(auto)]

pub mod axis_report;
mod keyword_name;
