//! What holds of every stream and every message. `specs/Show.antt` and `specs/Sent.antt` state it.

ghost use Rattle.std.specs.Prelude.{◌≡◌, ◌++◌, ℕ, List, flat_map, true};
ghost use Rattle.rpc_record.specs.Framed.{Framed};
ghost use Rattle.wire.specs.Message.{message_spell, IsSpelled};
ghost use Rattle.wire.specs.declared.message.Message.{Message};
ghost use Rattle.record_show.specs.Line.{line_of};
ghost use Rattle.record_show.specs.Show.{record_text, shown};
ghost use Rattle.record_show.specs.Sent.{sent_line, is_known};

/// Records are shown one by one, in whatever fragments they come, and then what follows them.
pub fn records_are_shown()
    ensures { (records : List (List ℕ)) (bytes rest : List ℕ) → Framed records bytes rest → shown bytes ≡ flat_map record_text records ++ shown rest }
{}

/// What is sent is shown: a call with its arguments, if its version of LBFS is one that is known, an
/// answer and a refusal whether or not anything waits for them.
pub fn sent_is_shown()
    ensures { (m : Message) → IsSpelled m → is_known m ≡ true → line_of (message_spell m) ≡ sent_line m }
{}
