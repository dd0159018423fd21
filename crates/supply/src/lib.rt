// Power that fails after a counted number of byte writes.
#![tactic(auto)]

ghost use Rattle.std.specs.Prelude.{◌≡◌, min, true, false, cond, length};
ghost use Rattle.supply.specs.Budget.{is_on, cuts_of, Raised, Spent, Asked};
ghost use Rattle.supply.specs.Writing.{Asks, written};

use std::vec::IntoIter;

// Power is off, or it is on and lasts for so many byte writes more; without a number it stays.
// No Option of an Option, which is no plainer: the two states have names here.
#[derive(Clone, Copy)]
enum Power {
    Off,
    On(Option<u32>),
}

// Each power-up takes the next of the cut counts; once all are taken power stays.
#[derive(Drop)]
pub struct Supply {
    cuts: IntoIter<u32>,
    power: Power,
}

impl Supply {
    // Power that is off, with no cut count taken.
    pub fn new(cuts: Vec<u32>) -> Supply
        ensures off { is_on result ≡ false }
        ensures cuts { cuts_of result ≡ cuts.items }
    {
        Supply {
            cuts: cuts.into_iter(),
            power: Power::Off,
        }
    }

    pub fn is_on(&self) -> bool
        ensures { result ≡ is_on self.now }
    {
        matches!(self.power, Power::On(_))
    }

    // Power-up, under the next cut count if one is left.
    pub fn raise(&mut self)
        ensures { Raised self.old self.new }
    {
        let left = self.cuts.next();
        self.power = Power::On(left);
    }

    // One byte write: true where power lasts for it; else power is off afterwards.
    pub fn spend(&mut self) -> bool
        ensures on { is_on self.old ≡ true → Spent 1 self.old result self.new }
        ensures off { is_on self.old ≡ false → (result ≡ false) × (self.new ≡ self.old) }
    {
        match self.power {
            Power::Off => false,
            Power::On(None) => true,
            Power::On(Some(0)) => {
                self.power = Power::Off;
                false
            }
            Power::On(Some(n)) => {
                self.power = Power::On(Some(n - 1));
                true
            }
        }
    }

    // One byte write to a slot, answered as `spend` does, and no Result, since only power can fail it: done where power lasts for it; else power is off afterwards and the slot is as it was.
    pub fn write(&mut self, slot: &mut u8, byte: u8) -> bool
        ensures slot { slot.new ≡ cond result byte slot.old }
        ensures power { Asked 1 self.old result self.new }
        ensures off { is_on self.old ≡ false → self.new ≡ self.old }
    {
        let done = self.spend();
        if done {
            *slot = byte;
        }
        done
    }

    // Writes some bytes, as many as fit, over the front of `part`, in order and until power fails.
    pub fn write_all(&mut self, part: &mut [u8], bytes: &[u8]) -> bool
        ensures { Asks (min (length bytes.now) (length part.old)) (λ k. written k bytes.now part.old) self.old result part.new self.new }
    {
        let fitting = &bytes[..bytes.len().min(part.len())];
        // By index: of the slice behind a zipped `iter_mut` nothing is known in the end.
        for (i, byte) in fitting.iter().enumerate() {
            if !self.write(&mut part[i], *byte) {
                return false;
            }
        }
        true
    }
}
