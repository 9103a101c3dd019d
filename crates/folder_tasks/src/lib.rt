//! The tasks of folders and directories, over what is done with one path (`shell_walks`, `path_commands`): what one
//! does, and which come of it. `specs/Tasks.antt` says what a task comes to, `specs/Visiting.antt` what it leaves alone.
#![tactic(auto)]

mod getting;
mod putting;
mod unfit;
pub mod visiting;
