//! Configurations of which something is known, found by keys.

ghost use Rattle.std.specs.Prelude.{◌≡◌, ◌++◌, ◌∷◌, [], Some, IfSome, OnOk, OnErr, slice_get};

use lin_object::SeqObject;
use lin_search::Config;
use std::alloc::{AllocError, Global};
use std::marker::Model;

// To how many places keys lead.
const PLACES: usize = 1 << 14;

// The number of no configuration.
const NONE: u32 = u32::MAX;

// For each configuration its key, and the one before it whose key led to the same place. They are hints.
#[derive(Drop)]
struct Keys {
    keys: Vec<u64>,
    earlier: Vec<u32>,
    last: Vec<u32>,
}

// The place to which a key leads.
fn place_of(key: u64) -> usize {
    ((key ^ (key >> 32)) % PLACES as u64) as usize
}

impl Keys {
    // The last configuration whose key leads to the same place.
    fn last_of(&self, key: u64) -> u32 {
        self.last.get(place_of(key)).copied().unwrap_or(NONE)
    }

    // Makes the places up to this one.
    fn make_place(&mut self, place: usize) -> Result<(), AllocError> {
        for _ in self.last.len()..PLACES {
            if self.last.len() > place {
                return Ok(());
            }
            self.last.push(NONE)?;
        }
        Ok(())
    }

    // Adds the key of the configuration of this number.
    fn add(&mut self, key: u64, number: u32) -> Result<(), AllocError> {
        let place = place_of(key);
        self.make_place(place)?;
        let before = self.last_of(key);
        self.keys.push(key)?;
        self.earlier.push(before)?;
        if let Some(last) = self.last.get_mut(place) {
            *last = number;
        }
        Ok(())
    }
}

/// Configurations, found by keys. Contracts see the configurations.
#[derive(Drop)]
pub(crate) struct Known<O: SeqObject> {
    configs: Vec<Config<O>>,
    keys: Keys,
}

impl<O: SeqObject> Model for Known<O> {
    ghost use Rattle.std.specs.Prelude.{List};
    ghost use Rattle.lin_search.specs.Configuration.{Configuration};

    ghost Value = { List (Configuration O.State) };

    ghost view = { λ known. known.configs.items };
}

impl<O: SeqObject> Known<O> {
    /// None. It takes no memory.
    pub(crate) fn new(alloc: Global) -> Self
        ensures { result ≡ [] }
    {
        Known {
            configs: Vec::new(alloc),
            keys: Keys {
                keys: Vec::new(alloc),
                earlier: Vec::new(alloc),
                last: Vec::new(alloc),
            },
        }
    }

    /// Adds the configuration. Where memory was refused there is none more.
    pub(crate) fn add(&mut self, config: Config<O>, key: u64) -> Result<(), AllocError>
        ensures ok { OnOk result (self.new ≡ self.old ++ config ∷ []) }
        ensures err { OnErr result (self.new ≡ self.old) }
    {
        let number = usize::min(self.configs.len(), NONE as usize);
        self.keys.add(key, number as u32)?;
        self.configs.push(config)?;
        Ok(())
    }

    /// The last configuration whose key leads to the same place.
    pub(crate) fn last_of(&self, key: u64) -> u32 {
        self.keys.last_of(key)
    }

    /// The one before it.
    pub(crate) fn before(&self, number: u32) -> u32 {
        self.keys
            .earlier
            .get(number as usize)
            .copied()
            .unwrap_or(NONE)
    }

    /// The configuration of this number, if it has the key.
    pub(crate) fn with_key(&self, number: u32, key: u64) -> Option<&Config<O>>
        ensures { IfSome result (λ config. slice_get self.now number ≡ Some config.now) }
    {
        if self.keys.keys.get(number as usize).copied() == Some(key) {
            self.configs.get(number as usize)
        } else {
            None
        }
    }
}
