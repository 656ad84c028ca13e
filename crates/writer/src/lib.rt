// The writer of layouts: bytes into output that the caller lends.
#![tactic(auto)]

ghost use Rattle.std.specs.Prelude.{◌≡◌, map};
ghost use Rattle.layout.specs.Label.{mask_of};
ghost use Rattle.layout.specs.Layout.{Few};
ghost use Rattle.refusal.specs.Refusal.{answered};
ghost use Rattle.writer.specs.Bytes.{write_layout_of, output_of};

use fields::{Field, Listed, One, Row};
use layout::{Control, Layout};
use refusal::Refusal;

// The masks of controls.
#[derive(Clone, Copy)]
struct Masks<'a>(&'a [Control]);

impl<'a> Row for Masks<'a> {
    type Item = u16;

    ghost list = { λ m. map (λ c. mask_of c.label) m.0.now };

    fn count(self) -> usize {
        self.0.len()
    }

    fn get(self, i: usize) -> u16 {
        self.0[i].label.mask()
    }
}

pub fn write_layout(l: Layout, out: &mut [u8]) -> Result<usize, Refusal>
    requires { Few l }
    ensures answer { answered result ≡ write_layout_of l out.old }
    ensures output { out.new ≡ output_of l out.old }
{
    let all = l.elements();
    let game = Field::new(1, One(l.game));
    let elements = Field::new(2, Listed(all.as_slice()));
    let masks = Field::new(3, Listed(Masks(l.control_list())));
    let length = game.length() + elements.length() + masks.length();
    if out.len() < length {
        return Err(Refusal::SheetTooSmall);
    }
    let mut at = game.put(out, 0);
    at = elements.put(out, at);
    masks.put(out, at);
    Ok(length)
}
