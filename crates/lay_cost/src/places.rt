//! Where scalars stand.
ghost use Rattle.std.specs.Prelude.{◌≡◌, ◌<◌, ◌≤◌, ◌+◌, length, All};
ghost use Rattle.lay_cost.specs.Memory.{place_at, no_places, with_scalar, with_close, with_list};

/// A register on which no list lies. Scalars without a place stand there at one offset, where this register is before a block begins:
/// so their accesses cost nothing.
pub(crate) const SPARE: u8 = 64;

/// A register, and an offset from where it begins.
#[derive(Clone, Copy)]
pub(crate) struct Place {
    pub(crate) register: u8,
    pub(crate) offset: u8,
}

/// Where scalars stand in lists, of which the last one is open.
#[derive(Drop)]
pub(crate) struct Places {
    /// By the scalars' numbers.
    pub(crate) places: [Place; 64],
    /// The register of the open list, and how many scalars it has.
    pub(crate) register: u8,
    pub(crate) length: u8,
}

impl Places {
    pub(crate) fn none() -> Self
        ensures { result ≡ no_places }
    {
        Places {
            places: [Place {
                register: SPARE,
                offset: 0,
            }; 64],
            register: 0,
            length: 0,
        }
    }

    pub(crate) fn get(&self, scalar: u8) -> Place
        requires { scalar < 64 }
        ensures { result ≡ place_at self.now.places scalar }
    {
        self.places[usize::from(scalar)]
    }

    /// One more scalar in the open list.
    pub(crate) fn push(&mut self, scalar: u8)
        requires scalar { scalar < 64 }
        requires room { self.old.length < 64 }
        ensures { self.new ≡ with_scalar self.old scalar }
    {
        self.places[usize::from(scalar)] = Place {
            register: self.register,
            offset: self.length,
        };
        self.length += 1;
    }

    /// The open list is closed, and the next one is open.
    pub(crate) fn close(&mut self)
        requires { self.old.register < 64 }
        ensures { self.new ≡ with_close self.old }
    {
        self.register += 1;
        self.length = 0;
    }

    /// One more list, and it is closed.
    pub(crate) fn push_list(&mut self, scalars: &[u8])
        requires scalars { All (λ s. s < 64) scalars.now }
        requires room { self.old.length + length scalars.now ≤ 64 }
        requires register { self.old.register < 64 }
        ensures { self.new ≡ with_list self.old scalars.now }
    {
        for scalar in scalars {
            self.push(*scalar);
        }
        self.close();
    }
}
