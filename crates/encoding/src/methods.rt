ghost use Rattle.std.specs.Prelude.{◌≡◌, ℕ};
ghost use Rattle.encoding.specs.Encodings.{Enc, standard};
ghost use Rattle.encoding.specs.Numbers.{IsMethodOf};
ghost use Rattle.std.proofs.Common.{rules};

use crate::encodings::{DotProduct, Encoding, LanesProduct, PlainProduct};
use crate::numbers::NoNumber;

// What a product may ask for.
#[derive(Clone, Copy, Debug, PartialEq, Eq, Hash)]
pub enum Method {
    Zero,
    One,
    Two,
}

impl TryFrom<u32> for Method {
    type Error = NoNumber;

    ghost try_from_gives = { IsMethodOf };

    fn try_from(number: u32) -> Result<Self, NoNumber> {
        match number {
            0 => Ok(Method::Zero),
            1 => Ok(Method::One),
            2 => Ok(Method::Two),
            _ => Err(NoNumber(number)),
        }
    }
}

// Which encoding stands at each of the three methods: chosen when the engine is put together.
pub trait Methods {
    type Zero: Encoding;

    type One: Encoding;

    type Two: Encoding;

    ghost method: { ℕ → Enc };

    ghost first: { method 0 ≡ Self.Zero.Encoding.enc };

    ghost second: { method 1 ≡ Self.One.Encoding.enc };

    ghost third: { method 2 ≡ Self.Two.Encoding.enc };
}

// The usual choice: plain products, products lane by lane, inner products.
#[derive(Clone, Copy, Debug)]
pub struct Standard;

impl Methods for Standard {
    type Zero = PlainProduct;

    type One = LanesProduct;

    type Two = DotProduct;

    ghost method = { standard };

    ghost first = { Prim.search rules };

    ghost second = { Prim.search rules };

    ghost third = { Prim.search rules };
}
