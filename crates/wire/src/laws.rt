//! What holds of every message and every record: `specs/Message.antt` says what a record says,
//! `specs/Refused.antt` when it is no message, and `specs/Size.antt` which messages are short.

ghost use Rattle.std.specs.Prelude.{◌≡◌, ℕ, ◌<◌, ◌^◌, List, Ok, false};
ghost use Rattle.xdr_codec.specs.Format.{IsBytes};
ghost use Rattle.wire.specs.Message.{message_spell, is_unfit, IsSpelled, MessageFits, Says};
ghost use Rattle.wire.specs.Parse.{parse_of, IsExpected};
ghost use Rattle.wire.specs.Refused.{HaveCauses, IsRefused, HasNoBytes};
ghost use Rattle.wire.specs.Size.{IsSmall};
ghost use Rattle.wire.specs.declared.message.Message.{Message};
ghost use Rattle.wire.specs.declared.message.Message.TheVariants.{Unfit};
ghost use Rattle.wire.specs.declared.message.RpcRefusal.{RpcRefusal};
ghost use Rattle.wire.specs.declared.message.Waiting.{Waiting};

/// What is sent is read again by the other end: a call where its program is served, an answer or
/// a refusal where its xid waits for it.
pub fn sent_is_read()
    ensures { (w : Waiting) (m : Message) → IsSpelled m → IsExpected w m → parse_of w (message_spell m) ≡ Ok m }
{}

/// Every record that says a message is read as it, whatever its authentication items are.
pub fn said_is_read()
    ensures { (w : Waiting) (m : Message) (bytes : List ℕ) → IsExpected w m → Says m bytes → parse_of w bytes ≡ Ok m }
{}

/// A message has a record of at most `RECORD_MOST` bytes, where a READ gives at most `PIECE_MOST`: so record
/// marking never finds it too big.
pub fn small_fits()
    ensures { (m : Message) → IsSpelled m → IsSmall m → MessageFits m }
{}

/// What is read as a message, other than a call that can't be taken, says it; it is a call whose
/// program is served, or answers what waits under its xid.
pub fn read_is_said()
    ensures { (w : Waiting) (m : Message) (bytes : List ℕ) → IsBytes bytes → is_unfit m ≡ false → parse_of w bytes ≡ Ok m → Says m bytes × IsExpected w m }
{}

/// A record is a call that can't be taken, with the refusal that is to be sent back, exactly where
/// it says so: in another version of RPC; of a program that isn't served, or not in this version; of
/// no procedure of it; or where what follows the header is none of the procedure's arguments. It is
/// no RPC message exactly where neither a reply's nor a call's header stands there. A reply is
/// unasked exactly where its xid doesn't wait, and garbage exactly where it waits and the record
/// says no message that may come.
pub fn refusals_have_causes()
    ensures { (w : Waiting) → HaveCauses w }
{}

/// The refusal of a call that can't be taken has a record, and the end that called, which waits
/// under the xid, reads that refusal.
pub fn refusals_are_read()
    ensures { (w : Waiting) (xid : ℕ) (why : RpcRefusal) (bytes : List ℕ) → w.lbfs < 2 ^ 32 → IsBytes bytes → parse_of w bytes ≡ Ok (Unfit xid why) → IsRefused xid why }
{}

/// A call that can't be taken has no bytes to send, every other message has some, and no bytes are
/// no message.
pub fn unfit_is_not_sent()
    ensures { HasNoBytes }
{}
