//! What a command of a shell about paths of the server comes to, over what is done with one path (`shell_walks`):
//! `specs/Doing.antt`; and how a folder gets its directory. Which path a line's words name is `shell_commands`.
#![tactic(auto)]

pub mod doing;
pub mod placing;
