//! What holds of the two ends together. `specs/Ends.antt` states it.

ghost use Rattle.std.specs.Prelude.{◌≡◌, ℕ, List, [], map, None, All};
ghost use Rattle.rpc_record.specs.Records.{split};
ghost use Rattle.wire.specs.Message.{message_spell, MessageFits};
ghost use Rattle.wire.specs.declared.message.Message.{Message};
ghost use Rattle.record_ends.specs.Ends.{nothing_kept, coming, out_bytes};

/// An inbox to which nothing came yet gives the records of all bytes that come, as record marking
/// parts them, however they are cut.
pub fn an_inbox_gives_the_records()
    ensures { (bytes : List ℕ) → coming nothing_kept bytes ≡ split bytes }
{}

/// What one end puts out the inbox of the other gives, record for record, and nothing is left.
pub fn what_is_put_out_is_given()
    ensures { (messages : List Message) → All MessageFits messages → coming nothing_kept (out_bytes messages) ≡ record { records = map message_spell messages; rest = []; spoilt = None } }
{}
