//! What holds of the grammar, whatever the text is: laws of `specs/Parts.antt`, `Fields.antt` and
//! `Content.antt`.

ghost use Rattle.std.specs.Prelude.{◌≡◌, ℕ, ◌<◌, ◌^◌, ◌==◌, false, List, [], ◌∷◌, ◌++◌, Some, decimal, flat_map, length};
ghost use Rattle.std.specs.List.{list_any, AllByRecursion};
ghost use Rattle.command_text.specs.declared.content.Part.{Part};
ghost use Rattle.command_text.specs.Content.{content_bytes, content_length};
ghost use Rattle.command_text.specs.Fields.{number_of};
ghost use Rattle.command_text.specs.Parts.{lines_of};

/// Lines without line feeds, each ended by one, are the lines of what they make.
pub fn lines_are_read_again()
    ensures { (lines : List (List ℕ)) → AllByRecursion (λ line. list_any (λ b. b == 10) line ≡ false) lines → lines_of (flat_map (λ line. line ++ 10 ∷ []) lines) ≡ lines }
{}

/// Each number of at most 64 bits is read from its text in decimal, and from no other word.
pub fn numbers_are_decimal()
    ensures read { (n : ℕ) → n < 2 ^ 64 → number_of (decimal n) ≡ Some n }
    ensures only { (word : List ℕ) (n : ℕ) → number_of word ≡ Some n → word ≡ decimal n }
{}

/// A content has as many bytes as its length says.
pub fn contents_have_their_length()
    ensures { (content : List Part) → length (content_bytes content) ≡ content_length content }
{}
