// A list of at most N elements in an array, with no heap: what every store of fixed size is made of. The fields are public, and a
// count beyond the array is taken as given; it counts as N.
#![tactic(auto)]

ghost use Rattle.std.specs.Prelude.{◌≡◌, [], ◌-◌, ◌≤◌, Bool, drop, length, slice_get, slice_set};
ghost use Rattle.base.specs.Keyed.{kept};
ghost use Rattle.fixed_vec.specs.FixedVec.{held, PushedAs, ExtendedAs};

#[derive(Clone, Copy)]
pub struct FixedVec<T, const N: usize> {
    pub list: [T; N],
    pub count: usize,
}

// What `retain` asks of an element. A trait and no closure: a closure may be called only where its own `requires` holds, so `retain` would have a
// `requires`, and no public function of a library has one.
pub trait Test<T> {
    ghost use Rattle.std.specs.Prelude.{Bool};

    ghost passes: { Self → T → Bool };

    fn passes(&self, x: &T) -> bool
        ensures { result ≡ passes self.now x.now };
}

impl<T: Copy, const N: usize> FixedVec<T, N> {
    // Holds nothing; the blank stands in every place.
    #[tactic(auto, unfolding(crate::specs::FixedVec::held))]
    pub fn new(blank: T) -> Self
        ensures { held result ≡ [] }
    {
        FixedVec {
            list: [blank; N],
            count: 0,
        }
    }

    // How many are held.
    #[tactic(auto, unfolding(crate::specs::FixedVec::held))]
    pub fn len(&self) -> usize
        ensures value { result ≡ length (held self.now) }
        ensures fits { result ≤ N }
    {
        self.count.min(N)
    }

    // Those held, first to last.
    #[tactic(auto, unfolding(crate::specs::FixedVec::held))]
    pub fn as_slice(&self) -> &[T]
        ensures value { result.now ≡ held self.now }
        ensures fits { length result.now ≤ N }
    {
        &self.list[..self.count.min(N)]
    }

    // All of a slice at the end, or none of it where there is not the room for all; whether there is.
    #[tactic(auto, unfolding(crate::specs::FixedVec::held))]
    pub fn extend_from_slice(&mut self, more: &[T]) -> bool
        ensures { ExtendedAs N self.old more.now result self.new }
    {
        let n = self.len();
        self.count = n;
        if N - n < more.len() {
            return false;
        }
        let list = &mut self.list[..];
        list[n..n + more.len()].copy_from_slice(more);
        self.count = n + more.len();
        true
    }

    pub fn get(&self, at: usize) -> Option<T>
        ensures { result ≡ slice_get (held self.now) at }
    {
        self.as_slice().get(at).copied()
    }

    // The oldest.
    pub fn first(&self) -> Option<T>
        ensures { result ≡ slice_get (held self.now) 0 }
    {
        self.as_slice().first().copied()
    }

    // The newest.
    pub fn last(&self) -> Option<T>
        ensures { result ≡ slice_get (held self.now) (length (held self.now) - 1) }
    {
        self.as_slice().last().copied()
    }

    // One more at the end; given back where there is no room.
    #[tactic(auto, unfolding(crate::specs::FixedVec::held))]
    pub fn push(&mut self, x: T) -> Result<(), T>
        ensures { PushedAs N self.old x result self.new }
    {
        let n = self.len();
        if n < N {
            self.list[n] = x;
            self.count = n + 1;
            return Ok(());
        }
        Err(x)
    }

    // Puts x in the place of the element there; where there is none, nothing changes.
    #[tactic(auto, using(crate::proofs::Laws::set_held, std::proofs::lemmas::List::set_past), unfolding(crate::specs::FixedVec::held))]
    pub fn set(&mut self, at: usize, x: T)
        ensures { held self.new ≡ slice_set (held self.old) at x }
    {
        if at < self.len() {
            self.list[at] = x;
        }
    }

    // Drops the first n, or all where there are fewer; the others move to the front.
    #[tactic(auto, unfolding(crate::specs::FixedVec::held))]
    pub fn remove_front(&mut self, n: usize)
        ensures { held self.new ≡ drop n (held self.old) }
    {
        let count = self.len();
        let gone = n.min(count);
        self.list.copy_within(gone..count, 0);
        self.count = count - gone;
    }

    // Keeps those that pass the test, in their order.
    pub fn retain<K: Test<T>>(&mut self, keep: &K)
        ensures value { held self.new ≡ kept (K.passes keep.now) (held self.old) }
        ensures fits { length (held self.new) ≤ N }
    {
        let count = self.len();
        let mut at = 0;
        for k in 0..count {
            let x = self.list[k];
            if keep.passes(&x) {
                self.list[at] = x;
                at += 1;
            }
        }
        self.count = at;
    }

    // Holds nothing from then on.
    #[tactic(auto, unfolding(crate::specs::FixedVec::held))]
    pub fn clear(&mut self)
        ensures { held self.new ≡ [] }
    {
        self.count = 0;
    }
}
