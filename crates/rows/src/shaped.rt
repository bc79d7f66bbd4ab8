// The same, once what the tables hold is seen to have the shape.
ghost use Rattle.std.specs.Prelude.{true, ◌≡◌};
ghost use Rattle.rules.specs.Shape.{shape};
ghost use Rattle.rows.specs.Seen.{seen};

use crate::lent::Lent;

#[derive(Clone, Copy)]
pub struct Shaped<'a> {
    pub lent: Lent<'a>,
    ghost shaped: { shape lent.z (seen lent) ≡ true },
}
