// The nonces of the sync requests that are outstanding, in the order of issue: one issued again counts once, from its latest issue.
#![tactic(auto)]

ghost use Rattle.std.specs.Prelude.{◌≡◌, [], length, false, not, eqb};
ghost use Rattle.nonces.specs.Nonces.{outstanding, issued, SpentAs};

use ceilings::MOST_NONCES;
use fixed_vec::{FixedVec, Test};

#[derive(Clone, Copy)]
pub struct Nonces {
    pub list: FixedVec<u32, MOST_NONCES>,
}

// Any nonce but one passes.
#[derive(Clone, Copy)]
struct OtherThan {
    nonce: u32,
}

impl Test<u32> for OtherThan {
    ghost passes = { λ t x. not (eqb t.nonce x) };

    fn passes(&self, x: &u32) -> bool {
        self.nonce != *x
    }
}

impl Nonces {
    // The list is written out: to take it from `FixedVec::new` is to copy it.
    #[tactic(auto, unfolding(crate::specs::Nonces::outstanding, fixed_vec::specs::FixedVec::held))]
    pub fn new() -> Nonces
        ensures { outstanding result ≡ [] }
    {
        Nonces {
            list: FixedVec {
                list: [0; MOST_NONCES],
                count: 0,
            },
        }
    }

    #[tactic(auto, unfolding(crate::specs::Nonces::outstanding))]
    pub fn count(&self) -> usize
        ensures { result ≡ length (outstanding self.now) }
    {
        self.list.len()
    }

    // The nonce is outstanding no longer; whether it was. Where it was not, nothing changes.
    fn forget(&mut self, nonce: u32) -> bool
        ensures { SpentAs self.old nonce false 0 result self.new }
    {
        let found = self.list.as_slice().contains(&nonce);
        if found {
            self.list.retain(&OtherThan { nonce });
        }
        found
    }

    // The nonce at the end, and nowhere else; where 256 others are outstanding, the oldest of them is forgotten.
    pub fn issue(&mut self, nonce: u32)
        ensures { outstanding self.new ≡ issued nonce (outstanding self.old) }
    {
        self.forget(nonce);
        let over = self.count().saturating_sub(MOST_NONCES - 1);
        self.list.remove_front(over);
        self.list.push(nonce).unwrap()
    }

    // The nonce is found where it is outstanding, and is so no longer: fewer are left, so that the next one, where the handshake goes on, has its room.
    #[tactic(auto, using(crate::proofs::Laws::goes))]
    pub fn spend(&mut self, nonce: u32, goes_on: bool, next: u32) -> bool
        ensures { SpentAs self.old nonce goes_on next result self.new }
    {
        let found = self.forget(nonce);
        if found && goes_on {
            self.issue(next);
        }
        found
    }
}
