// A directory of houses, made from entries that keep the rules.
ghost use Rattle.std.specs.Prelude.{◌≡◌, ℕ, ◌<◌, ◌≤◌, ◌≢◌, true, [], ◌∷◌, ◌++◌, map, length, IfOk};
ghost use Rattle.settings.specs.Places.{bic_at, held_house, given_house};
ghost use Rattle.settings.specs.Rules.{house_limit, bics_kept};
ghost use Rattle.settings.specs.Room.{room as memory};

use crate::directory::Directory;
use crate::house::House;
use crate::opening::HouseEntry;
use index::Index;
use keys::Bic;
use std::alloc::{AllocError, Global};

impl Directory {
    // A directory of no houses, with memory for as many as `room`.
    fn open(heap: Global, room: usize) -> Result<Directory, AllocError>
        ensures { IfOk result (λ d. (d.houses.items ≡ []) × (room ≤ memory d)) }
    {
        Ok(Directory {
            houses: Vec::with_capacity(heap, room)?,
            by_bic: Index::open(heap, room)?,
        })
    }

    // One house more, whose BIC none of the others has. There is memory for it.
    fn add(&mut self, house: House)
        requires few { length self.old.houses.items < house_limit }
        requires room { length self.old.houses.items < memory self.old }
        requires new { (n : ℕ) → bic_at self.old.houses.items n ≢ Some house.bic }
        ensures houses { self.new.houses.items ≡ self.old.houses.items ++ house ∷ [] }
        ensures room { memory self.new ≡ memory self.old }
    {
        let place = self
            .by_bic
            .find(self.houses.as_slice(), &house.bic)
            .unwrap_err();
        let number = self.houses.len() as u16;
        self.houses.push_reserved(house);
        let _ = self.by_bic.insert_at(place, number);
    }

    // The houses that the entries give, in their order.
    pub(crate) fn of(heap: Global, entries: &[HouseEntry]) -> Result<Directory, AllocError>
        requires few { length entries.now ≤ house_limit }
        requires kept { bics_kept entries.now ≡ true }
        ensures { IfOk result (λ d. map held_house d.houses.items ≡ map given_house entries.now) }
    {
        let mut directory = Directory::open(heap, entries.len())?;
        for entry in entries {
            directory.add(House {
                bic: Bic::read(entry.bic).unwrap(),
                suspended: entry.suspended,
            });
        }
        Ok(directory)
    }
}
