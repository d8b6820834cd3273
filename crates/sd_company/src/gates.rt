// A gate that counts who comes to the directory, and holds them until it is opened.
use sd_clock::Gate;
use std::sync::atomic::{AtomicBool, AtomicU64, Ordering};
use std::thread::yield_now;

/// How often a gate looks whether it is opened.
const LOOKS: u64 = 1_000_000_000;

/// What holds sessions before the directory.
pub struct Hold {
    held: AtomicU64,
    is_open: AtomicBool,
    gave_up: AtomicBool,
}

impl Drop for Hold {
    fn drop(self) {
        let Hold {
            held: _,
            is_open: _,
            gave_up: _,
        } = self;
    }
}

impl Hold {
    pub fn new() -> Hold {
        Hold {
            held: AtomicU64::new(0),
            is_open: AtomicBool::new(false),
            gave_up: AtomicBool::new(false),
        }
    }

    pub fn open(&self) {
        self.is_open.store(true, Ordering::SeqCst);
    }

    /// Whether a session went on before the gate was opened.
    pub fn gave_up(&self) -> bool {
        self.gave_up.load(Ordering::SeqCst)
    }

    /// Waits until a session has come to the gate.
    pub fn wait_for_one(&self) {
        for _ in 0..LOOKS {
            if self.held.load(Ordering::SeqCst) > 0 {
                return;
            }
            yield_now();
        }
    }
}

/// A gate that holds its session until it is opened, and counts how often the session came.
#[derive(Clone, Copy)]
pub struct HeldGate<'h> {
    pub hold: &'h Hold,
    pub asked: &'h AtomicU64,
}

impl<'h> Gate for HeldGate<'h> {
    fn before_directory(&self, _server: u32) {
        self.asked.fetch_add(1, Ordering::SeqCst);
        self.hold.held.fetch_add(1, Ordering::SeqCst);
        for _ in 0..LOOKS {
            if self.hold.is_open.load(Ordering::SeqCst) {
                return;
            }
            yield_now();
        }
        self.hold.gave_up.store(true, Ordering::SeqCst);
    }
}
