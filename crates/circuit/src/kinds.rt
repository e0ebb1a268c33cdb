// What a gate does.
ghost use Rattle.std.specs.Prelude.{◌≡◌};
ghost use Rattle.circuit.specs.Kinds.{kind_by};

#[derive(Clone, Copy, Debug, PartialEq, Eq, Hash)]
pub enum Kind {
    In,
    Add,
    Sub,
    Scale,
    Offset,
    Place,
    Mul,
    Out,
}

// The kind of this number in a gate code; a code has no number above 7, which is OUT.
impl From<u32> for Kind {
    ghost from_gives = { λ number kind. kind ≡ kind_by number };

    fn from(number: u32) -> Kind {
        match number {
            0 => Kind::In,
            1 => Kind::Add,
            2 => Kind::Sub,
            3 => Kind::Scale,
            4 => Kind::Offset,
            5 => Kind::Place,
            6 => Kind::Mul,
            _ => Kind::Out,
        }
    }
}
