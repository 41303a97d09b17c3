//! Where the scalars of a frame lie.
ghost use Rattle.std.specs.Prelude.{◌≡◌, ◌<◌, ◌≤◌, ℕ, length, slice_index, All};
ghost use Rattle.cc_check.specs.Findings.{address_of};
ghost use Rattle.cc_check.specs.Memory.{with_list};

use lay_cert::CertFrame;

/// The address of each scalar of a frame, by its number. One that is no word stands for itself: no walk gives it.
#[derive(Drop)]
pub(crate) struct Addresses {
    table: [u32; 64],
}

impl Addresses {
    /// Each list's base and the words behind it.
    pub(crate) fn of(frame: &CertFrame) -> Self
        ensures { (s : ℕ) → s < frame.now.seq.scalars → slice_index result.table s ≡ address_of frame.now s }
    {
        let bases = frame.bases();
        let lists = frame.arr().lists();
        let mut addresses = Addresses { table: [0; 64] };
        for (index, list) in lists.iter().enumerate() {
            addresses.place(u32::from(bases[index]), list.scalars());
        }
        addresses
    }

    // Scalars lie one behind another, from a base on.
    fn place(&mut self, base: u32, scalars: &[u8])
        requires scalars { All (λ s. s < 64) scalars.now }
        requires short { length scalars.now ≤ 64 }
        requires base { base < 65536 }
        ensures { self.new.table ≡ with_list self.old.table base scalars.now }
    {
        let mut address = base;
        for scalar in scalars {
            self.table[usize::from(*scalar)] = address;
            address += 1;
        }
    }

    pub(crate) fn address(&self, scalar: u8) -> u32
        requires { scalar < 64 }
        ensures { result ≡ slice_index self.now.table scalar }
    {
        self.table[usize::from(scalar)]
    }
}
