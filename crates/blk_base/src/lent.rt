// Values that are lent.
ghost use Rattle.std.specs.Prelude.{◌≡◌};

use std::marker::Model;

/// A value that lies elsewhere. To contracts it is that value.
#[derive(Drop)]
pub struct Lent<'a, T> {
    place: &'a T,
}

impl<'a, T> Model for Lent<'a, T> {
    ghost Value = { T };

    ghost view = { λ l. l.place.now };
}

impl<'a, T> Lent<'a, T> {
    /// The value that lies there.
    pub fn at(place: &'a T) -> Lent<'a, T>
        ensures { result ≡ place.now }
    {
        Lent { place }
    }

    /// Where it lies.
    pub fn get(&self) -> &'a T
        ensures { result.now ≡ self.now }
    {
        self.place
    }
}

impl<'a, T: PartialEq> PartialEq for Lent<'a, T> {
    ghost eq = { T.eq };

    ghost laws = { T.laws };

    fn eq(&self, other: &Self) -> bool {
        self.place == other.place
    }
}
