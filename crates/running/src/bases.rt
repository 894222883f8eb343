// The bases of the levels' frames.
ghost use Rattle.std.specs.Prelude.{◌≡◌, List, ℕ, length, replicate, slice_index, slice_set};

use crate::address::Address;
use std::marker::Model;

pub const LEVELS: usize = 9;

// The base of each level's frame. Clauses see the list of them.
#[derive(Drop)]
pub struct Bases {
    items: [Address; 9],
}

impl Model for Bases {
    ghost Value = { List ℕ };

    ghost view = { λ s. s.items };

    ghost invariant = { λ s. length s.items ≡ 9 };
}

impl Bases {
    // Each base 0.
    pub fn new() -> Self
        ensures { result ≡ replicate 9 0 }
    {
        Bases {
            items: [Address::new(0); 9],
        }
    }

    // The base of each level's frame, the outermost first.
    pub fn of(items: [Address; 9]) -> Self
        ensures { result ≡ items }
    {
        Bases { items }
    }

    // All of them, the outermost first.
    pub fn all(&self) -> [Address; 9]
        ensures { result ≡ self.now }
    {
        let all = self.items;
        all
    }

    // The base of a level's frame, 0 where there is no such level.
    pub fn get(&self, level: u8) -> Address
        ensures { result ≡ slice_index self.now level }
    {
        self.items
            .get(usize::from(level))
            .copied()
            .unwrap_or(Address::new(0))
    }

    // Puts another base in the place of a level's, if there is such a level.
    pub fn set(&mut self, level: u8, base: Address)
        ensures { self.new ≡ slice_set self.old level base }
    {
        let level = usize::from(level);
        if level < LEVELS {
            self.items[level] = base;
        }
    }
}
