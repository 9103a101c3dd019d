//! What there is to type.

use shell_words::command::Verb;

/// All commands.
const ALL: &str = "ls [-l] [PATH]             lists a directory
cd [PATH]                  goes to a directory
pwd                        says where that is
lcd [LOCAL]                goes to a folder here, or says which it is
get [-r] PATH [LOCAL]      fetches a file, or with -r a directory
put [-r] LOCAL [PATH]      stores a file, or with -r a folder
sync [--delete] LOCAL PATH stores what differs in a folder
mkdir [-p] PATH            makes a directory
rm [-r] PATH               removes a file, or with -r a directory with all in it
rmdir PATH                 removes an empty directory
mv PATH PATH               gives a file or a directory another name
stat PATH                  says what a name stands for
cat PATH                   writes what is in a file
help [COMMAND]             says this, or more of one command (COMMAND --help)
bye                        ends the shell (so do quit and exit)
PATH is on the server, LOCAL here; a name with blanks is quoted: 'two words'.
An option may stand behind names; behind -- all words are names.
";

const LS: &str = "ls [-l] [PATH]
Lists the names in a directory; without PATH in the one where the shell stands.
A file is listed alone. With -l each line has what the name stands for, its
bytes (of a directory its names), its version and the name.
";

const CD: &str = "cd [PATH]
Goes to a directory of the server, where PATHs that begin with no slash begin
from then on; without PATH it stays.
";

const PWD: &str = "pwd
Says in which directory of the server the shell stands.
";

const LCD: &str = "lcd [LOCAL]
Goes to a folder here, where LOCALs that begin with no slash begin from then
on; without LOCAL it says which one.
";

const GET: &str = "get [-r] PATH [LOCAL]
Fetches a file to LOCAL: into it where LOCAL is a folder, and else in its
place; without LOCAL to the file's own name here. With -r a directory, with all
that is in it; PATH/. goes to LOCAL itself, also where that is there. A file
that is replaced keeps its permissions, and of what it has nothing is fetched.
Nothing is where LOCAL's folder can't be written.
";

const PUT: &str = "put [-r] LOCAL [PATH]
Stores a file under PATH: in it where PATH is a directory; without PATH where
the shell stands. The directories above it are made, where they aren't there.
With -r a folder, with all that is in it, but for symbolic links and what a
stopped get left, which are said. Of a file that is replaced nothing is
fetched. Storing over a certain version alone (--if-version) isn't there yet.
";

const SYNC: &str = "sync [--delete] LOCAL PATH
Stores what differs, by content, in the folder LOCAL, so that the directory
PATH has it all. With --delete what LOCAL hasn't is removed there. Each path
that was stored, made or removed is said, unless the shell is --quiet. Symbolic
links in the folder, and what a stopped get left, are said, and what has their
names stays.
";

const MKDIR: &str = "mkdir [-p] PATH
Makes a directory; with -p those above it too, and one that is there is fine.
";

const RM: &str = "rm [-r] PATH
Removes a file; with -r a directory too, with all that is in it, unless the
shell stands there, or the last name of PATH is . or ..
";

const RMDIR: &str = "rmdir PATH
Removes an empty directory.
";

const MV: &str = "mv PATH PATH
Gives a file or a directory another name: the second PATH, or its own in it,
where that is a directory. There a file replaces a file, and a directory an
empty one. A file in which nothing is stored yet stays where it is. No file
gets a PATH that ends with /, /. or /..
";

const STAT: &str = "stat PATH
Says whether a name stands for a file or a directory, its id, its version and
its length.
";

const CAT: &str = "cat PATH
Writes what is in a file to standard output.
";

const HELP: &str = "help [COMMAND]
Says which commands there are, or what one does, as COMMAND --help does.
";

const BYE: &str = "bye
Ends the shell, as the end of the input does; so do quit and exit.
";

/// What is told of all commands.
pub(crate) fn all() -> &'static [u8] {
    ALL.as_bytes()
}

/// What is told of a command.
pub(crate) fn of(verb: Verb) -> &'static [u8] {
    let text = match verb {
        Verb::Ls => LS,
        Verb::Cd => CD,
        Verb::Pwd => PWD,
        Verb::Lcd => LCD,
        Verb::Get => GET,
        Verb::Put => PUT,
        Verb::Sync => SYNC,
        Verb::Mkdir => MKDIR,
        Verb::Rm => RM,
        Verb::Rmdir => RMDIR,
        Verb::Mv => MV,
        Verb::Stat => STAT,
        Verb::Cat => CAT,
        Verb::Help => HELP,
        Verb::Bye => BYE,
    };
    text.as_bytes()
}
