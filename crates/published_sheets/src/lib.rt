// The sheets that come with the table.
#![tactic(auto)]

ghost use Rattle.std.specs.Prelude.{◌≡◌, [], ◌∷◌, None};
ghost use Rattle.paytables.specs.Sheets.{Lawful};
ghost use Rattle.paytables.specs.Makes.{printed_sheet};
ghost use Rattle.published_sheets.specs.declared.PublishedSheet.TheVariants.{Blind};
ghost use Rattle.published_sheets.specs.Published.{to_1, published_entries};

use odds::Odds;
use paytables::printed::PrintedSheet;

#[derive(Clone, Copy, Debug, PartialEq, Eq)]
pub enum PublishedSheet {
    Blind,
    TripsA,
    TripsB,
    TripsC,
    TripsD,
    TripsE,
}

impl PublishedSheet {
    // No conversion of one thing into another form: which sheet is published is looked up.
    #[tactic(auto, using(crate::proofs::Rise::published_entries_rise))]
    pub fn sheet(self) -> PrintedSheet
        ensures entries { result.entries ≡ published_entries self }
        ensures lawful { Lawful (printed_sheet result) }
    {
        // the published entries keep the law, so that each list makes its sheet
        PrintedSheet::new(self.entries()).unwrap()
    }

    fn entries(self) -> [Option<Odds>; 10]
        ensures { result ≡ published_entries self }
    {
        match self {
            PublishedSheet::Blind => blind(),
            PublishedSheet::TripsA => trips(50, 40, 30, 9, 7, 4, 3),
            PublishedSheet::TripsB => trips(50, 40, 30, 8, 6, 5, 3),
            PublishedSheet::TripsC => trips(50, 40, 30, 8, 7, 4, 3),
            PublishedSheet::TripsD => trips(50, 40, 20, 7, 6, 5, 3),
            PublishedSheet::TripsE => trips(50, 40, 30, 7, 6, 5, 3),
        }
    }
}

fn blind() -> [Option<Odds>; 10]
    ensures { result ≡ published_entries Blind }
{
    [
        None,
        None,
        None,
        None,
        Odds::new(1, 1),
        Odds::new(3, 2),
        Odds::new(3, 1),
        Odds::new(10, 1),
        Odds::new(50, 1),
        Odds::new(500, 1),
    ]
}

// Odds to 1 from the royal flush down to three of a kind, listed from class 0 up.
fn trips(
    royal: u64,
    straight_flush: u64,
    four: u64,
    full_house: u64,
    flush: u64,
    straight: u64,
    three: u64,
) -> [Option<Odds>; 10]
    ensures { result ≡ None ∷ None ∷ None ∷ to_1 three ∷ to_1 straight ∷ to_1 flush ∷ to_1 full_house ∷ to_1 four ∷ to_1 straight_flush ∷ to_1 royal ∷ [] }
{
    [
        None,
        None,
        None,
        Odds::new(three, 1),
        Odds::new(straight, 1),
        Odds::new(flush, 1),
        Odds::new(full_house, 1),
        Odds::new(four, 1),
        Odds::new(straight_flush, 1),
        Odds::new(royal, 1),
    ]
}
