//! A gate at which two pieces meet.
use std::sync::atomic::AtomicBool;
use std::sync::atomic::Ordering::SeqCst;
use std::thread;
use word_base::Gate;

// How often piece 0 looks for piece 1 before it gives up.
const MOST_LOOKS: u32 = 100_000_000;

/// Holds piece 0 until piece 1 has entered.
#[derive(Drop)]
pub struct Meeting {
    first_entered: AtomicBool,
    second_entered: AtomicBool,
    gave_up: AtomicBool,
}

impl Meeting {
    /// Before any piece has entered.
    pub fn new() -> Self {
        Meeting {
            first_entered: AtomicBool::new(false),
            second_entered: AtomicBool::new(false),
            gave_up: AtomicBool::new(false),
        }
    }

    /// Whether both pieces entered, and piece 0 saw that piece 1 did.
    pub fn took_place(&self) -> bool {
        self.first_entered.load(SeqCst)
            && self.second_entered.load(SeqCst)
            && !self.gave_up.load(SeqCst)
    }

    fn hold(&self) {
        for _ in 0..MOST_LOOKS {
            if self.second_entered.load(SeqCst) {
                return;
            }
            // A busy machine may not have run the other thread yet.
            thread::yield_now();
        }
        self.gave_up.store(true, SeqCst);
    }
}

impl Gate for Meeting {
    fn enter(&self, piece: u32) {
        if piece == 0 {
            self.first_entered.store(true, SeqCst);
            self.hold();
        }
        if piece == 1 {
            self.second_entered.store(true, SeqCst);
        }
    }

    fn leave(&self, _piece: u32) {}
}
