#![tactic(auto, using(emsg::proofs::Contents::inside))]
// The strings and the message of an event message box (ISO/IEC 23009-1, 5.10.3.3), each as the part of the lent bytes
// where it lies.
ghost use Rattle.std.specs.Prelude.{◌≡◌};
ghost use Rattle.emsg.specs.Emsg.{scheme_of, value_of, message_of};

// The scheme's string without its 0, as the part of the box where it lies; no bytes where the box is refused.
pub fn scheme(part: &[u8]) -> &[u8]
    ensures { result.now ≡ scheme_of part.now }
{
    let Ok((_, places)) = emsg::read(part) else {
        return &part[..0];
    };
    let from = places.scheme;
    let to = places.scheme_end;
    &part[from..to]
}

// The value's string, in the same way.
pub fn value(part: &[u8]) -> &[u8]
    ensures { result.now ≡ value_of part.now }
{
    let Ok((_, places)) = emsg::read(part) else {
        return &part[..0];
    };
    let from = places.value;
    let to = places.value_end;
    &part[from..to]
}

// The message, in the same way.
pub fn message(part: &[u8]) -> &[u8]
    ensures { result.now ≡ message_of part.now }
{
    let Ok((_, places)) = emsg::read(part) else {
        return &part[..0];
    };
    let from = places.message;
    let to = places.end;
    &part[from..to]
}
