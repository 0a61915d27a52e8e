//! Who is at work in an epoch.
use std::hint::spin_loop;
use std::sync::atomic::{AtomicU64, Ordering};
use std::thread::yield_now;

/// Who is at work in an epoch, and how much was done in it. The parties tell it as they take their turns, and ask it
/// how long to wait: one that found nothing to do takes its next turn once others have done something, and leaves the
/// epoch where nobody is at work who could give it something to do. No contract speaks of it, since what a party does
/// in its turns is as promised whenever it takes them.
#[derive(Drop)]
pub struct Activity {
    /// How many turns did something.
    done: AtomicU64,
    /// How many parties are in the epoch and do not wait.
    at_work: AtomicU64,
}

/// A party that waits takes its next turn once others did something in so many turns, though nothing of it may be for
/// the party; or, where nobody is at work, in one.
const ENOUGH_DONE: u64 = 8;

/// A party leaves the epoch where it looked so many times in a row and nobody was at work, and nothing had been done.
const MOST_LULLS: u32 = 8;

/// After how many looks in a row a party leaves the epoch, whatever others do.
const MOST_LOOKS: u32 = 1_024;

/// A party spins for 2 to the power of this many pauses at most, which takes some microseconds.
const LONGEST_SPIN: u32 = 6;

impl Activity {
    /// So many parties are at work, and nothing was done.
    pub fn new(parties: u64) -> Activity {
        Activity {
            done: AtomicU64::new(0),
            at_work: AtomicU64::new(parties),
        }
    }

    /// How many turns have done something.
    pub fn done(&self) -> u64 {
        self.done.load(Ordering::SeqCst)
    }

    /// A turn of a party did something.
    pub fn tell_done(&self) {
        self.done.fetch_add(1, Ordering::SeqCst);
    }

    /// A party leaves the epoch that does not wait.
    pub fn leave(&self) {
        self.at_work.fetch_sub(1, Ordering::SeqCst);
    }

    /// A party waits that found nothing to do when so many turns had done something. Tells whether it is to take
    /// another turn; else it has left the epoch.
    ///
    /// It gives its place on the core away and spins by turns, for longer each time: so those go on that share its core.
    pub fn wait(&self, seen: u64) -> bool {
        self.at_work.fetch_sub(1, Ordering::SeqCst);
        let mut lulls = 0_u32;
        for look in 0..MOST_LOOKS {
            // Whoever works tells what it did before it waits itself: so it is asked first whether anybody works.
            let lull = self.at_work.load(Ordering::SeqCst) == 0;
            let more = self.done().wrapping_sub(seen);
            if more >= ENOUGH_DONE || lull && more > 0 {
                self.at_work.fetch_add(1, Ordering::SeqCst);
                return true;
            }
            lulls = if lull { lulls.wrapping_add(1) } else { 0 };
            if lulls == MOST_LULLS {
                return false;
            }
            if look % 2 == 0 {
                yield_now();
            } else {
                for _ in 0..1_u32 << look.min(LONGEST_SPIN) {
                    spin_loop();
                }
            }
        }
        false
    }
}
