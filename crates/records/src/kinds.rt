// The kinds of record (01, "The certificate"; 02, T-07: 5), and how a reply record stores its replies.
ghost use Rattle.std.specs.Prelude.{◌≡◌};
ghost use Rattle.records.specs.Kinds.{kind_of, kind_number, reply_kind_of, reply_kind_number};

#[derive(Clone, Copy, Debug, PartialEq, Eq)]
pub enum Kind {
    Circuit,
    Region,
    Replies,
    Attacks,
    Packed,
}

// A byte for each reply, or packed.
#[derive(Clone, Copy, Debug, PartialEq, Eq)]
pub enum ReplyKind {
    Bytes,
    Packed,
}

// The number of no such kind.
#[derive(Clone, Copy, Debug, PartialEq, Eq)]
pub struct UnknownKind(pub u16);

impl Kind {
    pub fn number(self) -> u16
        ensures { result ≡ kind_number self }
    {
        match self {
            Kind::Circuit => 1,
            Kind::Region => 2,
            Kind::Replies => 3,
            Kind::Attacks => 4,
            Kind::Packed => 5,
        }
    }
}

impl ReplyKind {
    pub fn number(self) -> u16
        ensures { result ≡ reply_kind_number self }
    {
        Kind::from(self).number()
    }
}

impl From<ReplyKind> for Kind {
    ghost from_gives = { λ kind r. kind_number r ≡ reply_kind_number kind };

    fn from(kind: ReplyKind) -> Kind {
        match kind {
            ReplyKind::Bytes => Kind::Replies,
            ReplyKind::Packed => Kind::Packed,
        }
    }
}

impl TryFrom<u16> for Kind {
    type Error = UnknownKind;

    ghost try_from_gives = { λ number r. r ≡ kind_of number };

    fn try_from(number: u16) -> Result<Kind, UnknownKind> {
        match number {
            1 => Ok(Kind::Circuit),
            2 => Ok(Kind::Region),
            3 => Ok(Kind::Replies),
            4 => Ok(Kind::Attacks),
            5 => Ok(Kind::Packed),
            _ => Err(UnknownKind(number)),
        }
    }
}

impl TryFrom<u16> for ReplyKind {
    type Error = UnknownKind;

    ghost try_from_gives = { λ number r. r ≡ reply_kind_of number };

    fn try_from(number: u16) -> Result<ReplyKind, UnknownKind> {
        match Kind::try_from(number)? {
            Kind::Replies => Ok(ReplyKind::Bytes),
            Kind::Packed => Ok(ReplyKind::Packed),
            _ => Err(UnknownKind(number)),
        }
    }
}
