// What every program needs that replays a list of outside answers: its lines one by one, their fields, the count, the report.
// No function here asks anything of its caller.
#![tactic(auto)]

pub mod field;
pub mod lines;
pub mod list;
pub mod tally;
