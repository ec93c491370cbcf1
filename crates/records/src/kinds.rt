// The kinds of rule, which a record gives by their numbers, and what is told of a kind.
ghost use Rattle.std.specs.Prelude.{◌≡◌, not};
ghost use Rattle.spec.specs.Kinds.{kind_of};
ghost use Rattle.spec.specs.Records.{no_kind, lacks_z};
ghost use Rattle.records.specs.Kinds.{as_kind, Numbered};

#[derive(Clone, Copy, Debug, PartialEq, Eq)]
pub enum Kind {
    Equ,
    Not,
    And,
    Or,
}

// A number that is no kind.
#[derive(Clone, Copy, Debug, PartialEq, Eq)]
pub struct NoKind(pub u8);

impl TryFrom<u8> for Kind {
    type Error = NoKind;

    ghost try_from_gives = { Numbered };

    #[tactic(auto, unfolding(spec::specs::Kinds::kind_of))]
    fn try_from(number: u8) -> Result<Self, NoKind> {
        match number {
            1 => Ok(Kind::Equ),
            2 => Ok(Kind::Not),
            3 => Ok(Kind::And),
            4 => Ok(Kind::Or),
            _ => Err(NoKind(number)),
        }
    }
}

impl Kind {
    // Whether a rule of this kind names a third box.
    #[tactic(auto, unfolding(spec::specs::Records::lacks_z))]
    pub fn has_z(self) -> bool
        ensures { result ≡ not (lacks_z (as_kind self)) }
    {
        match self {
            Kind::Equ | Kind::Not => false,
            Kind::And | Kind::Or => true,
        }
    }
}

// Of a byte, as `has_z` is: the records' promises speak of any.
#[tactic(auto, unfolding(spec::specs::Records::no_kind))]
pub fn is_kind(kind: u8) -> bool
    ensures { result ≡ not (no_kind (kind_of kind)) }
{
    Kind::try_from(kind).is_ok()
}

// A number that is no kind is not told apart here: its record is bad whatever its z is.
#[tactic(auto, unfolding(spec::specs::Records::lacks_z))]
pub fn has_z(kind: u8) -> bool
    ensures { result ≡ not (lacks_z (kind_of kind)) }
{
    match Kind::try_from(kind) {
        Ok(kind) => kind.has_z(),
        Err(_) => true,
    }
}
