// The sheet of a card that is held in memory, for C. A library of its own: with it in `capi_c`, a query would have two callers and no longer be laid down
// inside the one.
#![tactic(auto)]

ghost use Rattle.std.specs.Prelude.{◌≡◌, false};
ghost use Rattle.sheet_text.specs.Put.{Put};
ghost use Rattle.sheet_card.specs.Held.{has_room, held_sheet};

// Puts the sheet at the beginning of the caller's bytes and says how many bytes it has. 0, and nothing is changed, where these are fewer than 128 for
// every 5 of the card's and 256 more, which any sheet of so long a card fits in.
#[unsafe(no_mangle)]
pub extern "C" fn sheet_card_sheet_of(card: &[u8], sheet: &mut [u8]) -> usize
    ensures put { Put sheet.old sheet.new 0 result (held_sheet card.now sheet.old) }
    ensures sheet_unchanged { has_room card.now sheet.old ≡ false → sheet.new ≡ sheet.old }
{
    sheet_card::sheet_of(card, sheet)
}
