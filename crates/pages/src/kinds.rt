// The kinds of pages, by their numbers in a bundle. An entry of the contents holds the bare number, since a bundle that
// is not sound may have any.

#[derive(Clone, Copy, PartialEq, Eq)]
pub enum Kind {
    Opening,
    Request,
    // a circulated slip
    Circulated,
    Ack,
    // a ruling
    Decision,
    // a balance question
    Inquiry,
}

// A number that names no kind.
#[derive(Clone, Copy, PartialEq, Eq)]
pub struct UnknownKind(pub u8);

impl TryFrom<u8> for Kind {
    ghost use Rattle.pages.specs.Kinds.{Decodes};

    type Error = UnknownKind;

    ghost try_from_gives = { Decodes };

    fn try_from(number: u8) -> Result<Self, UnknownKind> {
        match number {
            0 => Ok(Kind::Opening),
            1 => Ok(Kind::Request),
            2 => Ok(Kind::Circulated),
            3 => Ok(Kind::Ack),
            4 => Ok(Kind::Decision),
            5 => Ok(Kind::Inquiry),
            _ => Err(UnknownKind(number)),
        }
    }
}

impl From<Kind> for u8 {
    ghost use Rattle.std.specs.Prelude.{◌≡◌};
    ghost use Rattle.pages.specs.Kinds.{number_of};

    ghost from_gives = { λ kind number. number ≡ number_of kind };

    fn from(kind: Kind) -> u8 {
        match kind {
            Kind::Opening => 0,
            Kind::Request => 1,
            Kind::Circulated => 2,
            Kind::Ack => 3,
            Kind::Decision => 4,
            Kind::Inquiry => 5,
        }
    }
}
