//! Names as they are shown are read again, `shown_line` of `specs/Quoting.antt`, and those of files that are being
//! written are known: `writer_of` of `specs/Temporary.antt`.

ghost use Rattle.std.specs.Prelude.{◌≡◌, ◌<◌, ◌^◌, ℕ, List, Ok, Some};
ghost use Rattle.shell_words.specs.Again.{AreNames};
ghost use Rattle.shell_words.specs.Quoting.{shown_line};
ghost use Rattle.shell_words.specs.Temporary.{temporary, writer_of};
ghost use Rattle.shell_words.specs.Words.{words_of};

/// Names as they are shown, parted by blanks, are the words of a line, whatever their bytes are and however
/// many there are.
pub fn shown_names_are_read()
    ensures { (names : List (List ℕ)) → AreNames names → words_of (shown_line names) ≡ Ok names }
{}

/// The name of a file that is being written is known again, whatever its numbers are.
pub fn temporary_names_are_known()
    ensures { (process thread : ℕ) → process < 2 ^ 64 → thread < 2 ^ 64 → writer_of (temporary process thread) ≡ Some process }
{}
