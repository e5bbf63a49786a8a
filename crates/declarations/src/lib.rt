// The searches for a declaration: its file and line.
#![tactic(auto)]

pub mod declaration_lines;
pub mod declarations;
pub mod declaring;
pub mod joins;
pub mod own_declarations;
