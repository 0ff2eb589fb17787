// A printed sheet: it lists an entry or none for each class.
ghost use Rattle.std.specs.Prelude.{◌≡◌, true, length};
ghost use Rattle.paytables.specs.Lists.{rising};

use odds::Odds;

mod listing;

// From class 0 to class 9. The type keeps the law: each entry may follow the one before it.
#[derive(Clone, Copy, Debug, PartialEq, Eq)]
pub struct PrintedSheet {
    entries: [Option<Odds>; 10],
    ghost ten: { length entries ≡ 10 },
    ghost rising: { rising entries ≡ true },
}
