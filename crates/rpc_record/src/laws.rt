//! What holds of records, whatever the pieces in which their bytes come, and of the headers of
//! calls and replies. `specs/Framed.antt`, `specs/Spoilt.antt` and `specs/Refused.antt` state it.

ghost use Rattle.std.specs.Prelude.{◌≡◌, ◌↔◌, ℕ, List, [], ◌∷◌, ◌++◌, Some, None};
ghost use Rattle.std.specs.List.{concat};
ghost use Rattle.xdr_codec.specs.Format.{IsBytes};
ghost use Rattle.rpc_record.specs.Framed.{Framed, IsFramed};
ghost use Rattle.rpc_record.specs.Spoilt.{SpoiltBehind, Spoils};
ghost use Rattle.rpc_record.specs.declared.refusal.Refusal.{Refusal};
ghost use Rattle.rpc_record.specs.Header.{reply_form};
ghost use Rattle.rpc_record.specs.Refused.{IsRefusal};
ghost use Rattle.rpc_record.specs.Messages.{IsHeader, call_body, call_spell, CallFits, call_read, reply_spell, ReplyFits, reply_read};
ghost use Rattle.rpc_record.specs.Records.{Unread, HasRecord, split, fed, continued, all_fed, nothing_read, stream, CanSend, Came};

/// The records that are split off are those that the bytes carry in fragments, and a refusal
/// comes exactly where a bad header stands behind them. Where there is none, what a piece leaves of a
/// stream holds no whole record: none is at its front, and none stands there in any fragments.
pub fn records_are_framed()
    ensures sound { (bytes : List ℕ) → IsBytes bytes → IsFramed bytes (split bytes) }
    ensures complete { (records : List (List ℕ)) (bytes rest : List ℕ)
        → Framed records bytes rest
        → split bytes ≡ record {
          records = records ++ (split rest).records;
          rest = (split rest).rest;
          spoilt = (split rest).spoilt;
        } }
    ensures left { (unread : Unread) (piece contents : List ℕ) → (fed unread piece).0.spoilt ≡ None → ¬ HasRecord (fed unread piece).0.rest contents }
    ensures unframed { (unread : Unread) (piece contents behind : List ℕ)
        (records : List (List ℕ)) → (fed unread piece).0.spoilt ≡ None
        → ¬ Framed (contents ∷ records) (fed unread piece).0.rest behind }
{}

/// Pieces, however they were cut, are refused exactly where a start of a record stands behind
/// whole records in their joined bytes whose headers promise more than `RECORD_MOST` bytes, or which has
/// more than `FRAGMENTS_MOST` headers and promises no more than these; and those records come beside the refusal.
pub fn refusals_are_of_spoilt_streams()
    ensures exact { (pieces : List (List ℕ)) (why : Refusal) → IsBytes (concat pieces) → ((all_fed nothing_read pieces).spoilt ≡ Some why) ↔ Spoils (concat pieces) why }
    ensures beside { (pieces records : List (List ℕ)) (why : Refusal)
        → SpoiltBehind records (concat pieces) why
        → all_fed nothing_read pieces
        ≡ record { records = records; rest = []; spoilt = Some why } }
{}

/// However bytes are cut into pieces, the pieces give the records of the whole, one after the
/// other; and a stream that is spoilt stays so.
pub fn cuts_do_not_matter()
    ensures pieces { (pieces : List (List ℕ)) → all_fed nothing_read pieces ≡ split (concat pieces) }
    ensures more { (bytes more : List ℕ) → split (bytes ++ more) ≡ continued (split bytes) more }
{}

/// Of records that were sent, each as one fragment, those come whose bytes have come, and what is
/// left over is the beginning of the others.
pub fn streams_come_whole()
    ensures { (records : List (List ℕ)) (bytes behind : List ℕ) → CanSend records → bytes ++ behind ≡ stream records → Came records behind (split bytes) }
{}

/// A header is read exactly where its spelling stands, and what is spelled is read again, whatever
/// follows it; where reading is refused no spelling begins, and none is a proper prefix of another.
pub fn headers_are_exact()
    ensures calls { IsHeader call_spell CallFits call_read }
    ensures replies { IsHeader reply_spell ReplyFits reply_read }
{}

/// A header is refused for its type exactly where an xid stands and a number that is neither a
/// call's nor a reply's, and for a fault exactly where the bytes end within these two, or the type
/// is the other of the two, which is `BadValue` at its place, or what the type has is so refused.
pub fn refused_headers_have_their_causes()
    ensures calls { IsRefusal 0 call_body call_read }
    ensures replies { IsRefusal 1 reply_form reply_read }
{}
