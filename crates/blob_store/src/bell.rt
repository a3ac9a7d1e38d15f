//! `Bell`: a gate and an ear between threads. A ring before a wait isn't lost, several count as one, and after `stop` each
//! wait answers Stop. No contract says so, since it is another thread that rings.

ghost use Rattle.std.specs.Prelude.{◌≡◌};

use crate::gate::{Ear, Gate, Ring};
use std::marker::Model;
use std::sync::{Condvar, Mutex, Wait};

// What was rung since it was last heard.
#[derive(Drop)]
struct Rung {
    pass: bool,
    stop: bool,
}

/// A bell, which any number of gates ring and one ear hears.
#[derive(Drop)]
pub struct Bell {
    rung: Mutex<Rung>,
    rang: Condvar,
}

impl Bell {
    /// A bell that nobody has rung. It takes no memory.
    pub fn new() -> Bell {
        Bell {
            rung: Mutex::new(Rung {
                pass: false,
                stop: false,
            }),
            rang: Condvar::new(),
        }
    }

    /// Says that no more passes are wanted. It may wait, for the others who ring.
    pub fn stop<R: Wait>(&self, rt: &R) {
        self.rung.lock(rt).stop = true;
        self.rang.notify_one();
    }

    /// A gate that rings it, and has not rung yet. It takes no memory.
    pub fn gate<'a, R: Wait>(&'a self, rt: &'a R) -> BellGate<'a, R>
        ensures { result ≡ 0 }
    {
        BellGate {
            bell: self,
            rt,
            rings: 0,
        }
    }

    /// An ear that hears it, and has heard nothing yet. It takes no memory.
    pub fn ear<'a, R: Wait>(&'a self, rt: &'a R) -> BellEar<'a, R>
        ensures passes { result.passes ≡ 0 }
        ensures stops { result.stops ≡ 0 }
    {
        BellEar {
            bell: self,
            rt,
            passes: 0,
            stops: 0,
        }
    }
}

/// A gate that rings a bell. Contracts see how often it rang.
#[derive(Drop)]
pub struct BellGate<'a, R: Wait> {
    bell: &'a Bell,
    rt: &'a R,
    rings: u64,
}

impl<'a, R: Wait> Model for BellGate<'a, R> {
    ghost use Rattle.std.specs.Prelude.{ℕ};

    ghost Value = { ℕ };

    ghost view = { λ g. g.rings };
}

impl<'a, R: Wait> Gate for BellGate<'a, R> {
    ghost rings = { λ g. g };

    fn ring(&mut self) {
        self.rings += 1;
        self.bell.rung.lock(self.rt).pass = true;
        self.bell.rang.notify_one();
    }
}

/// The ear that hears a bell.
#[derive(Drop)]
pub struct BellEar<'a, R: Wait> {
    bell: &'a Bell,
    rt: &'a R,
    passes: u64,
    stops: u64,
}

impl<'a, R: Wait> Model for BellEar<'a, R> {
    ghost use Rattle.blob_store.specs.Rings.{Heard};

    ghost Value = { Heard };

    ghost view = { λ e. record { passes = e.passes; stops = e.stops } };
}

impl<'a, R: Wait> Ear for BellEar<'a, R> {
    ghost passes = { λ e. e.passes };

    ghost stops = { λ e. e.stops };

    fn wait(&mut self) -> Ring {
        let heard = hear(self.rt, self.bell);
        match heard {
            Ring::Pass => self.passes += 1,
            Ring::Stop => self.stops += 1,
        }
        heard
    }
}

// What was rung. That an expiry pass is due is heard once.
fn hear<R: Wait>(rt: &R, bell: &Bell) -> Ring {
    let mut rung = bell.rang.wait_while(rt, bell.rung.lock(rt), |rung| {
        !rung.pass && !rung.stop
    });
    if rung.stop {
        return Ring::Stop;
    }
    rung.pass = false;
    Ring::Pass
}
