// The words of each refusal, as docs/REPLIES.md has them.
ghost use Rattle.std.specs.Prelude.{◌≡◌};
ghost use Rattle.replies.specs.Texts.{text_for};

pub fn words(number: u32) -> &'static [u8]
    ensures { result.now ≡ text_for number }
{
    match number {
        1 => b"Parameters improperly specified",
        2 => b"Unknown object instance - Unknown CarrierID",
        3 => b"Object identifier in use, Duplicate CarrierID",
        4 => b"Load port already in use: reserved, or associated with a carrier",
        5 => b"Command not valid for current state",
        6 => b"Command not valid for current state: 16 carriers are expected already",
        7 => b"Command not valid for current state: the carrier is not verified",
        8 => b"Command not valid for current state: buffer place or opener in use",
        9 => b"Command not valid for current state: the CarrierOut queue is full",
        10 => b"Command not valid for current state: CarrierOut is queued already",
        11 => b"Parameters improperly specified: a clock earlier than the last accepted",
        12 => b"Parameters improperly specified: a time out of range",
        13 => b"Command not valid for current state: automatic transfer in MANUAL mode",
        14 => b"Room lent for the reply is too small",
        20 => b"Message cut short",
        21 => b"Unknown item format code",
        22 => b"No length byte, or a length no multiple of the element size",
        23 => b"Lists nested too deep",
        24 => b"Too many items",
        25 => b"Bytes left over after the message",
        26 => b"Unsupported option [service] requested, or a message of another shape",
        27 => b"Log: another mark or version",
        28 => b"Log: set-up out of range",
        29 => b"Log: cut short",
        _ => b"Unknown refusal",
    }
}
