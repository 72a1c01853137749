// Why a call is refused: document 01's "Answer numbers" with its words, and document 02's of request A1.
ghost use Rattle.std.specs.Prelude.{◌≡◌};
ghost use Rattle.figures.specs.Refusal.{all_refusals};

// A refusal, the error of every call that gives one, is its number. No struct around it: a value that holds one is handed on twice only through a copy of its own
// where its struct has a model, and every answer, decision and result of this project holds one.
pub type Refusal = u8;

// "version 0 or above 5"
pub const BAD_VERSION: Refusal = 1;

// "frame type above 3"
pub const BAD_FRAME_TYPE: Refusal = 2;

// "service not listed"
pub const BAD_SERVICE: Refusal = 3;

// "control info not listed"
pub const BAD_CONTROL_INFO: Refusal = 4;

// "flag set in version 1 or on a First Frame"
pub const BAD_FLAG: Refusal = 5;

// "First Frame size not 8, consecutive size 0, or above the largest"
pub const BAD_SIZE: Refusal = 6;

// "pool not 65,536 bytes, settings, offer or chunk (0 or above largest) out of range, state rule broken"
pub const BAD_SETTINGS: Refusal = 10;

// "out under 128 bytes (link), or too small for the bytes due"
pub const TOO_SMALL: Refusal = 11;

// "session not open (0 never is; opening excepted)"
pub const NOT_OPEN: Refusal = 12;

// "encryption flag set"
pub const ENCRYPTED: Refusal = 13;

// "version not the settled one; unsettled: above min(M, 4)"
pub const OTHER_VERSION: Refusal = 14;

// "settled at 5, data size above mtu minus 12"
pub const ABOVE_MTU: Refusal = 15;

// "type 1 to 3 on a service not running; 00 always runs, 0F from frame version 2"
pub const NOT_RUNNING: Refusal = 16;

// "control info other than 00, 01, 04, FF; or 00, FF not on service 00 or not settled at 3 or more"
pub const NOT_SERVED: Refusal = 17;

// "total 0 or above 65,536, count 0 .. or above total; sender: likewise, if more than one chunk"; A2 dropped "above 256"
pub const BAD_TOTALS: Refusal = 18;

// "message already open"
pub const ALREADY_OPEN: Refusal = 19;

// "held + need above C"
pub const ABOVE_CAP: Refusal = 20;

// "sum of larger-of-held-and-G above 256"
pub const NO_ROOM: Refusal = 21;

// "no message open"
pub const NO_MESSAGE: Refusal = 22;

// "other message id"
pub const OTHER_MESSAGE: Refusal = 23;

// "frame number wrong; message dropped"
pub const BAD_FRAME_NUMBER: Refusal = 24;

// "sizes wrong; message dropped"
pub const BAD_FRAME_SIZE: Refusal = 25;

// "sender: k past the last frame"
pub const NO_SUCH_FRAME: Refusal = 26;

// "document length not the lent length, or not 5 to 1,024"
pub const BAD_LENGTH: Refusal = 30;

// "type not read"
pub const BAD_TYPE: Refusal = 31;

// "key, value or nested document runs past its document; string length 0 or its last byte not 0; nested length under 5; a 0 in a type's place before its
// document's last byte, or the document used up without one; boolean not 0 or 1"
pub const MALFORMED: Refusal = 32;

// "depth 9, judged before its length"
pub const TOO_DEEP: Refusal = 33;

// "known tag twice or of another type"
pub const BAD_TAG: Refusal = 34;

// "payload under 12 bytes"
pub const RPC_TOO_SHORT: Refusal = 40;

// "type not 0 to 2 (query: not 00, 10, 20 or FF)"
pub const RPC_BAD_TYPE: Refusal = 41;

// "query id not 1, 2 or FFFFFF (all hex; in the writer also a function id over 28 bits)"
pub const RPC_BAD_ID: Refusal = 42;

// "JSON size past the end"; in the writer "if the JSON size isn't the JSON's length"
pub const RPC_BAD_JSON_SIZE: Refusal = 43;

// "bytes after the JSON on RPC"; in the writer "for bulk on RPC"
pub const RPC_BULK: Refusal = 44;

// Every refusal, by rising number.
pub fn all() -> [Refusal; 33]
    ensures { result ≡ all_refusals }
{
    [
        BAD_VERSION,
        BAD_FRAME_TYPE,
        BAD_SERVICE,
        BAD_CONTROL_INFO,
        BAD_FLAG,
        BAD_SIZE,
        BAD_SETTINGS,
        TOO_SMALL,
        NOT_OPEN,
        ENCRYPTED,
        OTHER_VERSION,
        ABOVE_MTU,
        NOT_RUNNING,
        NOT_SERVED,
        BAD_TOTALS,
        ALREADY_OPEN,
        ABOVE_CAP,
        NO_ROOM,
        NO_MESSAGE,
        OTHER_MESSAGE,
        BAD_FRAME_NUMBER,
        BAD_FRAME_SIZE,
        NO_SUCH_FRAME,
        BAD_LENGTH,
        BAD_TYPE,
        MALFORMED,
        TOO_DEEP,
        BAD_TAG,
        RPC_TOO_SHORT,
        RPC_BAD_TYPE,
        RPC_BAD_ID,
        RPC_BAD_JSON_SIZE,
        RPC_BULK,
    ]
}
