ghost use Rattle.std.specs.Prelude.{◌≡◌};
ghost use Rattle.ws_codec.specs.Objects.{kind_of_byte};

/// What an object is.
#[derive(Clone, Copy, Debug, PartialEq, Eq)]
pub enum ObjectKind {
    Numbers,
    Chars,
    Defined,
}

/// The kind that a byte tells.
pub fn kind_of(byte: u8) -> Option<ObjectKind>
    ensures { result ≡ kind_of_byte byte }
{
    if byte == 1 {
        Some(ObjectKind::Numbers)
    } else if byte == 2 {
        Some(ObjectKind::Chars)
    } else if byte == 3 {
        Some(ObjectKind::Defined)
    } else {
        None
    }
}
