// The film sheet of document 01, made from an order's bytes.
#![tactic(auto)]

ghost use Rattle.std.specs.Prelude.{◌≡◌};
ghost use Rattle.film_sheet.specs.Film.{film_sheet_of};

use preset::settings_layout;
use reader::read_order;
use sheet::{Sheet, layout_sheet, refused_sheet};

// The sheet of the order's layout, or of its refusal.
pub fn film_sheet(order: &[u8]) -> Sheet
    ensures { result ≡ film_sheet_of order.now }
{
    match read_order(order) {
        Ok(s) => layout_sheet(settings_layout(s)),
        Err(refusal) => refused_sheet(u8::from(refusal) as usize),
    }
}
